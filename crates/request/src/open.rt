// The entry: the order of the refusals, and what each command answers.
ghost use Rattle.std.specs.Prelude.{◌≡◌, true, length};
ghost use Rattle.layout.specs.Sizes.{image_words};
ghost use Rattle.opening.specs.Tasks.{request_of};
ghost use Rattle.opening.specs.Lent.{request_in};
ghost use Rattle.opening.specs.Openings.{status_number, open_request};
ghost use Rattle.request.specs.Screen.{row_of, screened_opened, request_ruled, told};

use crate::command::Command;
use crate::disable::serve_disable;
use crate::extend::serve_extend;
use crate::identity::serve_identity;
use crate::invoke::serve_invoke;
use crate::stash::serve_stash;
use crate::verify::serve_verify;
use layout::refusals::Refusal;
use layout::{IMAGE_WORDS, MARK_AT};
use opening::Opened;
use opening::inputs::RequestInputs;
use work::Work;

// What the command answers once the screen has passed. Each is a call of its own (`inline(never)`): in line, an opening would take
// the stack of all six (bench/stack).
fn serve(command: Command, image: &[u32], lent: RequestInputs) -> Result<Work, Refusal>
    requires { (length image.now ≡ image_words) × ((row_of command).length_ok lent.bytes.now ≡ true) }
    ensures { result ≡ screened_opened (row_of command) image.now (request_in lent.entry) }
{
    match command {
        Command::Stash => serve_stash(image, lent.bytes, lent.caller),
        Command::Disable => serve_disable(image),
        Command::Identity => serve_identity(image, lent.handoff),
        Command::Verify => serve_verify(image, lent.verdict),
        Command::Extend => serve_extend(image, lent.bytes),
        Command::Invoke => serve_invoke(image, lent.bytes, lent.caller, lent.fresh),
    }
}

// The work that a request opens: the refusals in their order.
fn request_work(image: &[u32], lent: RequestInputs) -> Result<(Work, ()), Refusal>
    ensures { result ≡ told (request_ruled image.now (request_in lent.entry)) }
{
    if image.len() != IMAGE_WORDS {
        return Err(Refusal::WrongImage);
    }
    if image[MARK_AT] != 1 {
        return Err(Refusal::Unfinished);
    }
    let command = Command::try_from(lent.code)?;
    command.screen(lent.code, lent.bytes)?;
    let work = serve(command, image, lent)?;
    Ok((work, ()))
}

// Opens a request on an image: it reads the image and changes nothing.
// The inputs stay loose parameters, since the C interface (`waggleloft_open_request`) takes them so.
pub fn open_request(
    image: &[u32],
    code: u32,
    bytes: &[u8],
    caller: u32,
    handoff: &[u8],
    verdict: bool,
    fresh: &[u8],
) -> Opened<()>
    ensures value { result ≡ open_request image.now (request_of code bytes.now caller handoff.now verdict fresh.now) }
    ensures status_value { status_number result.status ≡ status_number (open_request image.now (request_of code bytes.now caller handoff.now verdict fresh.now)).status }
{
    let lent = RequestInputs {
        code,
        bytes,
        caller,
        handoff,
        verdict,
        fresh,
    };
    Opened::from(request_work(image, lent))
}
