// A node's words as a boot, a stash or a derive makes them, with tag 0; and the words of a handle.
#![tactic(auto)]

ghost use Rattle.std.specs.Prelude.{◌≡◌, ◌<◌, get_or};
ghost use Rattle.layout.specs.Sizes.{node_words};
ghost use Rattle.layout.specs.Words.{words48, flat};
ghost use Rattle.nodes.specs.Record.{handle_row, node_row, new_node, fields_from, measurements_row, handle_placed};

use layout::{
    CUMULATIVE_AT, CURRENT_AT, FLAGS_AT, HANDLE_AT, HANDLE_BYTES, HANDLE_WORDS, LOCALITY_AT,
    NODE_WORDS, REGISTER_WORDS, SVN_AT, TYPE_AT,
};
use slices::little_endian::{pack, read32};

// The words of a handle.
pub fn handle_words(handle: [u8; HANDLE_BYTES]) -> [u32; HANDLE_WORDS]
    ensures { result ≡ handle_row handle }
{
    std::array::from_fn(|k| read32(&handle, 4 * k))
}

// Word j of a node's words, with tag 0.
fn row_word(
    first: u32,
    handle: [u32; HANDLE_WORDS],
    flags: u32,
    current: [u32; REGISTER_WORDS],
    cumulative: [u32; REGISTER_WORDS],
    kind: u32,
    locality: u32,
    svn: u32,
    j: usize,
) -> u32
    requires { j < node_words }
    ensures { result ≡ get_or (flat (fields_from first 0 handle flags current cumulative kind locality svn)) j 0 }
{
    if j < 1 {
        return first;
    }
    if j < HANDLE_AT {
        return 0;
    }
    if j < FLAGS_AT {
        return handle[j - HANDLE_AT];
    }
    if j < CURRENT_AT {
        return flags;
    }
    if j < CUMULATIVE_AT {
        return current[j - CURRENT_AT];
    }
    if j < TYPE_AT {
        return cumulative[j - CUMULATIVE_AT];
    }
    if j < LOCALITY_AT {
        return kind;
    }
    if j < SVN_AT {
        return locality;
    }
    svn
}

// A node's words, with tag 0.
fn row_of(
    first: u32,
    handle: [u32; HANDLE_WORDS],
    flags: u32,
    current: [u8; 48],
    cumulative: [u8; 48],
    kind: u32,
    locality: u32,
    svn: u32,
) -> [u32; NODE_WORDS]
    ensures { result ≡ flat (fields_from first 0 handle flags (words48 current) (words48 cumulative) kind locality svn) }
{
    let now = pack(&current, 0);
    let all = pack(&cumulative, 0);
    std::array::from_fn(|j| row_word(first, handle, flags, now, all, kind, locality, svn, j))
}

// The words of a used node with tag 0.
pub fn node_row(
    parent: u16,
    handle: [u8; HANDLE_BYTES],
    flags: u32,
    current: [u8; 48],
    cumulative: [u8; 48],
    kind: u32,
    locality: u32,
    svn: u32,
) -> [u32; NODE_WORDS]
    ensures { result ≡ node_row (new_node parent handle flags current cumulative kind locality svn) }
{
    row_of(
        1 + 65536 * u32::from(parent),
        handle_words(handle),
        flags,
        current,
        cumulative,
        kind,
        locality,
        svn,
    )
}

// The words of a node's new measurements, in the places that they have in a node.
pub fn measurements_row(current: [u8; 48], cumulative: [u8; 48]) -> [u32; NODE_WORDS]
    ensures { result ≡ measurements_row current cumulative }
{
    row_of(0, [0u32; HANDLE_WORDS], 0, current, cumulative, 0, 0, 0)
}

// The words of a new handle, in the places that they have in a node.
pub fn handle_row(handle: [u8; HANDLE_BYTES]) -> [u32; NODE_WORDS]
    ensures { result ≡ handle_placed handle }
{
    row_of(0, handle_words(handle), 0, [0u8; 48], [0u8; 48], 0, 0, 0)
}
