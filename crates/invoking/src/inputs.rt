// The inputs that a tree command's journal entry tells: digest, handle and fresh handle, with zeros behind
// them.
ghost use Rattle.std.specs.Prelude.{◌≡◌, ◌++◌, ◌-◌, ◌*◌};
ghost use Rattle.layout.specs.Sizes.{handle_bytes};
ghost use Rattle.layout.specs.Words.{part, zeros};

use journal_bytes::read::handles;
use layout::{HANDLE_BYTES, INPUT_BYTES};
use slices::strings::{bytes_of, joined};

// A fresh handle's bytes; what it lacks is zero.
pub(crate) fn fresh_bytes(fresh: &[u8]) -> [u8; HANDLE_BYTES]
    ensures { result ≡ part handle_bytes fresh.now 0 }
{
    bytes_of(fresh, 0)
}

pub(crate) fn inputs_of(
    digest: [u8; 48],
    handle: [u8; HANDLE_BYTES],
    fresh: [u8; HANDLE_BYTES],
) -> [u8; INPUT_BYTES]
    ensures { result ≡ digest ++ (handle ++ (fresh ++ zeros (48 - 2 * handle_bytes))) }
{
    joined(&digest, &handles(handle, fresh))
}
