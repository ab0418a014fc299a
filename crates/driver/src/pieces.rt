// The operations on the running digest, which lives beside the image and the work in hand.
ghost use Rattle.std.specs.Prelude.{◌≡◌};
ghost use Rattle.sha384.specs.Errors.{number_of};

use crate::output::put32;
use crate::parts::Unlisted;
use running::Running;
use sha384::errors::DigestError;
use std::io;
use std::io::Write;

// The number of a feed: 0 where it is accepted.
fn number_of(fed: Result<(), DigestError>) -> u32
    ensures { result ≡ number_of fed }
{
    match fed {
        Ok(()) => 0,
        Err(error) => u32::from(error),
    }
}

// Feeds a slice, and writes the number. The state then.
pub(crate) fn feed<W: Write>(out: &mut W, state: Running, slice: &[u8]) -> io::Result<Running> {
    let mut after = state;
    let fed = after.feed(slice);
    put32(out, number_of(fed))?;
    Ok(after)
}

// A count of the running digest: the total, or the number waiting.
#[derive(Clone, Copy, Debug, PartialEq, Eq)]
pub(crate) enum Count {
    Total,
    Waiting,
}

impl TryFrom<u8> for Count {
    type Error = Unlisted;

    fn try_from(n: u8) -> Result<Count, Unlisted> {
        match n {
            0 => Ok(Count::Total),
            1 => Ok(Count::Waiting),
            _ => Err(Unlisted(n)),
        }
    }
}

// A state with one count set.
pub(crate) fn with_count(state: Running, count: Count, value: u64) -> Running {
    match count {
        Count::Total => Running {
            total: value,
            ..state
        },
        Count::Waiting => Running {
            waiting: value,
            ..state
        },
    }
}
