// A node extended by a digest: the root by an update boot, any other by a tree command.
ghost use Rattle.std.specs.Prelude.{◌≡◌};
ghost use Rattle.sha384.specs.Entries.{extended};
ghost use Rattle.nodes.specs.Record.{measurements_row};

use layout::NODE_WORDS;
use nodes::measurements_row;
use sha384::digest::extend;

// The words of a node's measurements once its cumulative one is extended by a digest: the digest, and the extended one.
pub fn extended_row(before: [u8; 48], digest: [u8; 48]) -> [u32; NODE_WORDS]
    ensures { result ≡ measurements_row digest (extended before digest) }
{
    measurements_row(digest, extend(before, digest))
}
