// Identity key: X and Y from the handoff table; nothing is stored.
ghost use Rattle.std.specs.Prelude.{◌≡◌, false, []};
ghost use Rattle.opening.specs.Tasks.{request_of};
ghost use Rattle.opening.specs.Rules.{handoff_ok, identity_key, identity_code};
ghost use Rattle.request.specs.Screen.{screened_opened};

use crate::answer::ready_plain;
use layout::refusals::Refusal;
use slices::little_endian::{read16, read32};
use table::Kind;
use work::Work;

// The handoff table: its bytes, its marker, its major version, and where the key is.
const TABLE_BYTES: usize = 2048;

const TABLE_MARKER: u32 = 0x54484643;

const TABLE_VERSION: u32 = 1;

const KEY_START: usize = 304;

const KEY_END: usize = 400;

#[tactic(auto, unfolding(opening::specs::Rules::handoff_ok))]
fn handoff_ok(h: &[u8]) -> bool
    ensures { result ≡ handoff_ok h.now }
{
    h.len() == TABLE_BYTES && read32(h, 0) == TABLE_MARKER && read16(h, 4) == TABLE_VERSION
}

#[inline(never)]
pub(crate) fn serve_identity(image: &[u32], handoff: &[u8]) -> Result<Work, Refusal>
    ensures { result ≡ screened_opened identity_key image.now (request_of identity_code [] 0 handoff.now false []) }
{
    if !handoff_ok(handoff) {
        return Err(Refusal::WrongTable);
    }
    Ok(ready_plain(Kind::Nothing, &handoff[KEY_START..KEY_END]))
}
