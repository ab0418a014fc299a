// Runs one mailbox request on a cold-booted image: reads a command code and a request from standard
// input and writes the result and the answer to standard output. What it writes for what it reads
// is `respond`'s contract. An input that cannot be read gets a message on standard error and nothing
// on standard output.
#![tactic(auto)]

ghost use Rattle.std.specs.Prelude.{◌≡◌, IfSome, OnOk, IsErrOf};
ghost use Rattle.std.specs.Io.KnownBytes.{Appends};
ghost use Rattle.respond.specs.Program.{program_output};
ghost use Rattle.mailbox.specs.declared.ExchangeError.TheVariants.{Unread, Unwritten};

use reading::{ReadFailed, read_whole};
use respond::{INPUT_MAX, respond};
use std::io::{Read, Write};
use std::{fmt, io};

// Why an exchange failed.
// (kept: the driver's and `replay`'s errors have the same two cases, but each program has messages of its own, and one
// enum has one `Display`)
#[derive(Clone, Copy, Debug, PartialEq, Eq)]
enum ExchangeError {
    Unread,
    Unwritten,
}

// A message is its whole line in one write, so that it stays in one piece on a shared stream.
impl fmt::Display for ExchangeError {
    fn fmt<W: fmt::Write>(&self, f: &mut fmt::Formatter<W>) -> fmt::Result {
        f.write_str(match self {
            ExchangeError::Unread => "mailbox: the input cannot be read: no answer\n",
            ExchangeError::Unwritten => "mailbox: the answer cannot be written\n",
        })
    }
}

impl From<ReadFailed> for ExchangeError {
    ghost from_gives = { λ _ e. e ≡ Unread };

    fn from(_failed: ReadFailed) -> ExchangeError {
        ExchangeError::Unread
    }
}

impl From<io::Error> for ExchangeError {
    ghost from_gives = { λ _ e. e ≡ Unwritten };

    fn from(_failed: io::Error) -> ExchangeError {
        ExchangeError::Unwritten
    }
}

// Writes the result and the answer of a code and a request.
fn answer<W: Write>(input: &[u8], out: &mut W) -> io::Result<()>
    ensures { OnOk result (Appends (W.contents out.old) (W.contents out.new) (program_output input.now)) }
{
    let response = respond(input);
    let bytes = response.bytes;
    out.write_all(&bytes[..response.len])
}

// Reads a code and a request, and answers them.
fn exchange<R: Read, W: Write>(input: &mut R, out: &mut W) -> Result<(), ExchangeError>
    ensures written { IfSome (R.remaining input.old) (λ xs. OnOk result (Appends (W.contents out.old) (W.contents out.new) (program_output xs))) }
    ensures silent { IsErrOf result ExchangeError.Unread → out.new ≡ out.old }
{
    let mut space = [0u8; INPUT_MAX];
    let n = read_whole(input, &mut space)?;
    answer(&space[..n], out)?;
    Ok(())
}

// A message that cannot be written either is lost.
fn main(rt: HostRuntime) {
    if let Err(error) = exchange(&mut rt.stdin(), &mut rt.stdout()) {
        let _ = write!(rt.stderr(), "{error}");
    }
}
