// Reads standard input, slice by slice, and prints its SHA-384 digest as `sha384sum` prints it. An input
// that cannot be read to its end, or is longer than 4,294,967,295 bytes, has no digest here: it gets a
// message on standard error and nothing on standard output.
#![tactic(auto)]

ghost use Rattle.std.specs.Prelude.{◌≡◌, ◌⊎◌, ◌%◌, ◌<◌, length, IfSome, IfOk, IfErr, OnOk, IsErrOf};
ghost use Rattle.std.specs.Io.KnownBytes.{Appends};
ghost use Rattle.sha384.specs.Sha384.{sha384};
ghost use Rattle.running.specs.Running.{longest_total};
ghost use Rattle.sha384sum.specs.Hex.{digit_of, hex_of};
ghost use Rattle.sha384sum.specs.Summed.{Digests, line_of};
ghost use Rattle.sha384sum.specs.declared.SumError.TheVariants.{Unread, TooLong, Unwritten};

use reading::{ReadFailed, read_whole};
use running::Running;
use sha384::errors::DigestError;
use std::io::{Read, Write};
use std::{fmt, io};

// The digit of a number's low four bits.
#[tactic(auto, unfolding(crate::specs::Hex::digit_of))]
fn digit(n: u8) -> u8
    ensures { result ≡ digit_of (n % 16) }
{
    let low = n % 16;
    if low < 10 { 48 + low } else { 87 + low }
}

// Two digits for each byte.
fn hex(bytes: [u8; 48]) -> [u8; 96]
    ensures { result ≡ hex_of bytes }
{
    let mut out = [0u8; 96];
    for (i, byte) in bytes.iter().enumerate() {
        out[2 * i] = digit(*byte / 16);
        out[2 * i + 1] = digit(*byte);
    }
    out
}

// The bytes of a slice, 510 blocks; and how many slices the longest input has, its rest counted.
const SLICE: usize = 65280;

const SLICES: usize = 65794;

// Why no digest was printed.
#[derive(Clone, Copy, Debug, PartialEq, Eq)]
enum SumError {
    Unread,
    TooLong,
    Unwritten,
}

// A message is its whole line in one write, so that it stays in one piece on a shared stream.
impl fmt::Display for SumError {
    fn fmt<W: fmt::Write>(&self, f: &mut fmt::Formatter<W>) -> fmt::Result {
        f.write_str(match self {
            SumError::Unread => "sha384sum: the input cannot be read: no digest\n",
            SumError::TooLong =>
                "sha384sum: the input is longer than 4294967295 bytes: no digest\n",
            SumError::Unwritten => "sha384sum: the digest cannot be written\n",
        })
    }
}

impl From<ReadFailed> for SumError {
    ghost from_gives = { λ _ e. e ≡ Unread };

    fn from(_failed: ReadFailed) -> SumError {
        SumError::Unread
    }
}

// A running digest just begun, fed slices of 65,280 bytes, refuses only a total that would be too large.
impl From<DigestError> for SumError {
    ghost from_gives = { λ _ e. e ≡ TooLong };

    fn from(_refused: DigestError) -> SumError {
        SumError::TooLong
    }
}

impl From<io::Error> for SumError {
    ghost from_gives = { λ _ e. e ≡ Unwritten };

    fn from(_failed: io::Error) -> SumError {
        SumError::Unwritten
    }
}

// Feeds all of the input. A slice that is not full is the last; with no such slice among the
// first SLICES the input is too long, which the last feed has refused.
fn take_input<R: Read>(input: &mut R) -> Result<Running, SumError>
    ensures digest { IfOk result (λ st. IfSome (R.remaining input.old) (λ xs. Digests xs st)) }
    ensures too_long { IsErrOf result SumError.TooLong → IfSome (R.remaining input.old) (λ xs. longest_total < length xs) }
{
    let mut space = [0u8; SLICE];
    let mut state = running::begin();
    for i in 0..SLICES {
        let n = read_whole(input, &mut space)?;
        state.feed(&space[..n])?;
        if n < SLICE {
            return Ok(state);
        }
    }
    Err(SumError::TooLong)
}

// Writes a digest's line.
fn print<W: Write>(out: &mut W, bytes: [u8; 48]) -> Result<(), SumError>
    ensures line { OnOk result (Appends (W.contents out.old) (W.contents out.new) (line_of bytes)) }
    ensures err { IfErr result (λ e. e ≡ Unwritten) }
{
    out.write_all(&hex(bytes))?;
    out.write_all(b"  -\n")?;
    Ok(())
}

// Reads an input to its end, and prints its digest.
fn sum<R: Read, W: Write>(input: &mut R, out: &mut W) -> Result<(), SumError>
    ensures printed { OnOk result (IfSome (R.remaining input.old) (λ xs. Appends (W.contents out.old) (W.contents out.new) (line_of (sha384 xs)))) }
    ensures too_long { IsErrOf result SumError.TooLong → IfSome (R.remaining input.old) (λ xs. longest_total < length xs) }
    ensures silent { IsErrOf result SumError.Unread ⊎ IsErrOf result SumError.TooLong → out.new ≡ out.old }
{
    let state = take_input(input)?;
    let bytes = state.finish()?;
    print(out, bytes)
}

// A message that cannot be written either is lost.
fn main(rt: HostRuntime) {
    if let Err(error) = sum(&mut rt.stdin(), &mut rt.stdout()) {
        let _ = write!(rt.stderr(), "{error}");
    }
}
