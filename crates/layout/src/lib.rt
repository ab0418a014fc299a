// Where each field of the memory image stands, and the numbers handed back.
//
// The number of nodes and the words of a node are named here and in specs/Sizes.antt. As numerals
// they stand again only in specs/Figures.antt and on the bench cards, on which no law rests.
#![tactic(auto)]

pub mod bytes;
pub mod geometry;
pub mod refusals;
pub mod registers;

pub const REGISTERS: usize = 32;

pub const REGISTER_WORDS: usize = 12;

pub const NODES: usize = 32;

pub const NODE_WORDS: usize = 35;

// The first word of each part of the image.
pub const MARK_AT: usize = 0;

pub const ATTESTATION_AT: usize = 1;

pub const SECRET_AT: usize = 4;

pub const REGISTERS_AT: usize = 16;

pub const NODES_AT: usize = REGISTERS_AT + REGISTERS * REGISTER_WORDS;

pub const IMAGE_WORDS: usize = NODES_AT + NODES * NODE_WORDS;

// The register of stashed measurements.
pub const STASH_REGISTER: usize = 31;

// The first word of the registers that the core extends: current, journey, stashed measurements.
pub const PCR2_AT: usize = REGISTERS_AT + 2 * REGISTER_WORDS;

pub const PCR3_AT: usize = REGISTERS_AT + 3 * REGISTER_WORDS;

pub const PCR31_AT: usize = REGISTERS_AT + STASH_REGISTER * REGISTER_WORDS;

// The registers that a request may extend.
pub const EXTEND_FIRST: usize = 4;

pub const EXTEND_LAST: usize = 30;

// The first word of each field of a node, counted within the node.
pub const HANDLE_AT: usize = 2;

pub const HANDLE_WORDS: usize = 5;

pub const HANDLE_BYTES: usize = 4 * HANDLE_WORDS;

pub const FLAGS_AT: usize = 7;

pub const CURRENT_AT: usize = 8;

pub const CUMULATIVE_AT: usize = 20;

pub const TYPE_AT: usize = 32;

pub const LOCALITY_AT: usize = 33;

pub const SVN_AT: usize = 34;

// What stands for the root's parent, each word of a retired handle, the root's flags and its type.
pub const ROOT_MARK: u32 = 0xFF;

pub const RETIRED_WORD: u32 = 0xFFFFFFFF;

pub const INTERNAL_FLAG: u32 = 0x80000000;

pub const ROOT_TYPE: u32 = 0x4D4A5452;

// The longest answer, in bytes.
pub const ANSWER_MAX: usize = 104;

// The inputs that a work keeps for its journal entry, in bytes: a boot's two digests, which no other kind
// exceeds.
pub const INPUT_BYTES: usize = 96;
