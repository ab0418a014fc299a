// Every constant of the geometry beside its definition: a constant that differs from it is refused
// here.
ghost use Rattle.std.specs.Prelude.{◌≡◌};
ghost use Rattle.layout.specs.Geometry.{geometry_of};

use crate::{
    ANSWER_MAX, ATTESTATION_AT, CUMULATIVE_AT, CURRENT_AT, EXTEND_FIRST, EXTEND_LAST, FLAGS_AT,
    HANDLE_AT, HANDLE_BYTES, HANDLE_WORDS, IMAGE_WORDS, INPUT_BYTES, INTERNAL_FLAG, LOCALITY_AT,
    MARK_AT, NODE_WORDS, NODES, NODES_AT, PCR2_AT, PCR3_AT, PCR31_AT, REGISTER_WORDS, REGISTERS,
    REGISTERS_AT, RETIRED_WORD, ROOT_MARK, ROOT_TYPE, SECRET_AT, STASH_REGISTER, SVN_AT, TYPE_AT,
};

#[derive(Clone, Copy)]
pub struct Geometry {
    pub registers: usize,
    pub register_words: usize,
    pub nodes: usize,
    pub node_words: usize,
    pub mark_at: usize,
    pub attestation_at: usize,
    pub secret_at: usize,
    pub registers_at: usize,
    pub nodes_at: usize,
    pub image_words: usize,
    pub pcr2_at: usize,
    pub pcr3_at: usize,
    pub pcr31_at: usize,
    pub stash_register: usize,
    pub extend_first: usize,
    pub extend_last: usize,
    pub handle_at: usize,
    pub handle_words: usize,
    pub handle_bytes: usize,
    pub flags_at: usize,
    pub current_at: usize,
    pub cumulative_at: usize,
    pub type_at: usize,
    pub locality_at: usize,
    pub svn_at: usize,
    pub answer_max: usize,
    pub input_bytes: usize,
    pub root_mark: u32,
    pub retired_word: u32,
    pub internal_flag: u32,
    pub root_type: u32,
}

pub fn constants() -> Geometry
    ensures { result ≡ geometry_of }
{
    Geometry {
        registers: REGISTERS,
        register_words: REGISTER_WORDS,
        nodes: NODES,
        node_words: NODE_WORDS,
        mark_at: MARK_AT,
        attestation_at: ATTESTATION_AT,
        secret_at: SECRET_AT,
        registers_at: REGISTERS_AT,
        nodes_at: NODES_AT,
        image_words: IMAGE_WORDS,
        pcr2_at: PCR2_AT,
        pcr3_at: PCR3_AT,
        pcr31_at: PCR31_AT,
        stash_register: STASH_REGISTER,
        extend_first: EXTEND_FIRST,
        extend_last: EXTEND_LAST,
        handle_at: HANDLE_AT,
        handle_words: HANDLE_WORDS,
        handle_bytes: HANDLE_BYTES,
        flags_at: FLAGS_AT,
        current_at: CURRENT_AT,
        cumulative_at: CUMULATIVE_AT,
        type_at: TYPE_AT,
        locality_at: LOCALITY_AT,
        svn_at: SVN_AT,
        answer_max: ANSWER_MAX,
        input_bytes: INPUT_BYTES,
        root_mark: ROOT_MARK,
        retired_word: RETIRED_WORD,
        internal_flag: INTERNAL_FLAG,
        root_type: ROOT_TYPE,
    }
}
