// The node words of each tree command's work.
ghost use Rattle.std.specs.Prelude.{◌≡◌, ◌≤◌};
ghost use Rattle.layout.specs.Sizes.{node_count};
ghost use Rattle.nodes.specs.Record.{node_row};
ghost use Rattle.opening.specs.Values.{derived_node};
ghost use Rattle.opening.specs.Works.{with_caller};

use layout::{HANDLE_BYTES, LOCALITY_AT, NODE_WORDS};
use nodes::node_row;
use sha384::digest::extend;

// A derived child's flags and svn.
const CHILD_FLAGS: u32 = 0;

const CHILD_SVN: u32 = 0;

// A derived child: its cumulative measurement is extended from zero.
pub(crate) fn child_row(
    parent: usize,
    handle: [u8; HANDLE_BYTES],
    kind: u32,
    digest: [u8; 48],
    caller: u32,
) -> [u32; NODE_WORDS]
    requires { parent ≤ node_count }
    ensures { result ≡ node_row (derived_node parent handle kind digest caller) }
{
    let cumulative = extend([0u8; 48], digest);
    node_row(
        parent as u16,
        handle,
        CHILD_FLAGS,
        digest,
        cumulative,
        kind,
        caller,
        CHILD_SVN,
    )
}

// The caller, for the journal, in a word that the command does not store.
pub(crate) fn with_caller(row: [u32; NODE_WORDS], caller: u32) -> [u32; NODE_WORDS]
    ensures { result ≡ with_caller row caller }
{
    let mut out = row;
    out[LOCALITY_AT] = caller;
    out
}
