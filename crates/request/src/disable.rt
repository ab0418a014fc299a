// Disable attestation: a disabling, whatever the unit holds.
ghost use Rattle.std.specs.Prelude.{◌≡◌, false, []};
ghost use Rattle.opening.specs.Tasks.{request_of};
ghost use Rattle.opening.specs.Rules.{disable_attestation, disable_code};
ghost use Rattle.request.specs.Screen.{screened_opened};

use crate::answer::ready_plain;
use layout::refusals::Refusal;
use table::Kind;
use work::Work;

#[inline(never)]
pub(crate) fn serve_disable(image: &[u32]) -> Result<Work, Refusal>
    ensures { result ≡ screened_opened disable_attestation image.now (request_of disable_code [] 0 [] false []) }
{
    Ok(ready_plain(Kind::Disabling, &[]))
}
