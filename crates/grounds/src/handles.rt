// A handle as its words, and whether a lent one will not do.
ghost use Rattle.std.specs.Prelude.{◌≡◌, ◌||◌, ltb, length, replicate};
ghost use Rattle.layout.specs.Sizes.{node_count, handle_words, handle_bytes};
ghost use Rattle.tree.specs.Tree.{same_handle, default_words, retired_words, node_with};
ghost use Rattle.tree.specs.Nodes.{tree_in};
ghost use Rattle.nodes.specs.Record.{handle_row};
ghost use Rattle.opening.specs.Orders.{unfit};

use layout::{HANDLE_BYTES, HANDLE_WORDS, NODES, RETIRED_WORD};
use nodes::handle_words;
use slices::strings::bytes_of;
use tree::index::handle_index;

// Whether a handle's words are all v.
pub(crate) fn all_are(handle: [u32; HANDLE_WORDS], v: u32) -> bool
    ensures { result ≡ same_handle handle (replicate handle_words v) }
{
    handle == [v; HANDLE_WORDS]
}

// The words of a lent handle.
fn fresh_words(fresh: &[u8]) -> [u32; HANDLE_WORDS]
    requires { length fresh.now ≡ handle_bytes }
    ensures { result ≡ handle_row fresh.now }
{
    handle_words(bytes_of(fresh, 0))
}

// Whether a handle is the default one, the retired one or a node's.
fn taken(image: &[u32], handle: [u32; HANDLE_WORDS]) -> bool
    ensures { result ≡ (same_handle handle default_words
        || (same_handle handle retired_words || ltb (node_with node_count (tree_in image.now) handle) node_count)) }
{
    all_are(handle, 0) || all_are(handle, RETIRED_WORD) || handle_index(image, handle) < NODES
}

// Whether a lent handle of any length will not do.
pub(crate) fn is_unfit(image: &[u32], fresh: &[u8]) -> bool
    ensures { result ≡ unfit (tree_in image.now) fresh.now }
{
    fresh.len() != HANDLE_BYTES || taken(image, fresh_words(fresh))
}
