// What a cold boot tests first: the image's length, and its inputs. An update boot tests the length itself.
ghost use Rattle.std.specs.Prelude.{◌≡◌};
ghost use Rattle.opening.specs.Lent.{boot_in};
ghost use Rattle.boot.specs.Given.{Screens};

use crate::inputs::{Inputs, accepted};
use layout::IMAGE_WORDS;
use layout::refusals::Refusal;
use opening::inputs::BootInputs;

pub(crate) fn screened(image: &[u32], lent: BootInputs) -> Result<Inputs, Refusal>
    ensures { Screens image.now (boot_in lent.entry) result }
{
    if image.len() != IMAGE_WORDS {
        return Err(Refusal::WrongImage);
    }
    accepted(lent)
}
