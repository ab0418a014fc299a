// Verify signature: the verdict is lent as yes or no; nothing is stored.
ghost use Rattle.std.specs.Prelude.{◌≡◌, []};
ghost use Rattle.opening.specs.Tasks.{request_of};
ghost use Rattle.opening.specs.Rules.{verify_signature, verify_code};
ghost use Rattle.request.specs.Screen.{screened_opened};

use crate::answer::ready_plain;
use layout::refusals::Refusal;
use table::Kind;
use work::Work;

#[inline(never)]
pub(crate) fn serve_verify(image: &[u32], verdict: bool) -> Result<Work, Refusal>
    ensures { result ≡ screened_opened verify_signature image.now (request_of verify_code [] 0 [] verdict []) }
{
    if verdict {
        return Ok(ready_plain(Kind::Nothing, &[]));
    }
    Err(Refusal::BadSignature)
}
