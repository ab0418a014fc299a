// INVOKE_DPE_COMMAND: declined, refused, or the work of a tree command.
ghost use Rattle.std.specs.Prelude.{◌≡◌, true, false, [], length};
ghost use Rattle.layout.specs.Sizes.{image_words};
ghost use Rattle.layout.specs.Words.{bytes4};
ghost use Rattle.opening.specs.Tasks.{request_of, invoke};
ghost use Rattle.opening.specs.Rules.{answer_of, invoke_dpe, invoke_code};
ghost use Rattle.opening.specs.Works.{work_at};
ghost use Rattle.grounds.specs.Ground.{order_of};
ghost use Rattle.request.specs.Screen.{screened_opened};

use crate::answer::{declined, ready_with};
use grounds::ground;
use invoking::plan_order;
use layout::ATTESTATION_AT;
use layout::refusals::{DPE_ACCEPTED, Decline, Refusal};
use opening::commands::DATA_MAX;
use orders::{Order, read_order};
use packing::four;
use slices::little_endian::read32;
use tree::formed::well_formed;
use work::Work;

// Where the data's size and the data are.
const SIZE_FROM: usize = 4;

const DATA_FROM: usize = 8;

// Whether the request is as long as its data's size says, and the data not too long.
pub(crate) fn length_ok(bytes: &[u8]) -> bool
    ensures { result ≡ invoke_dpe.length_ok bytes.now }
{
    if bytes.len() < DATA_FROM {
        return false;
    }
    let size = read32(bytes, SIZE_FROM) as usize;
    if DATA_MAX < size {
        return false;
    }
    bytes.len() == DATA_FROM + size
}

// An accepted command.
fn accepted(image: &[u32], order: Order, fresh: &[u8], caller: u32) -> Work
    ensures { result ≡ work_at image.now (invoke (order_of order fresh.now caller)) (answer_of (bytes4 0)) }
{
    let planned = plan_order(image, order, fresh, caller);
    let kind = planned.kind;
    let values = planned.values;
    let dpe = four(DPE_ACCEPTED);
    ready_with(kind, values, &dpe)
}

// The command, once length and checksum are fine.
#[inline(never)]
pub(crate) fn serve_invoke(
    image: &[u32],
    bytes: &[u8],
    caller: u32,
    fresh: &[u8],
) -> Result<Work, Refusal>
    requires { length image.now ≡ image_words }
    ensures { result ≡ screened_opened invoke_dpe image.now (request_of invoke_code bytes.now caller [] false fresh.now) }
{
    if image[ATTESTATION_AT] != 1 {
        return Ok(declined(Decline::Off));
    }
    if !well_formed(image) {
        return Err(Refusal::NotWellFormed);
    }
    let order = read_order(bytes, DATA_FROM);
    if let Err(decline) = ground(image, order, fresh, caller) {
        return Ok(declined(decline));
    }
    Ok(accepted(image, order, fresh, caller))
}
