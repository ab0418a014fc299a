// Replays a journal beside a saved image (document 02, §3): reads standard input, the image and then
// the journal, piece by piece, and writes what the inspection tells. An input that cannot be read to
// its end gets a message on standard error and nothing on standard output.
//
// What is told is proved to be what `inspection` tells of the pieces fed, from the first on. `reading`
// says of each piece that the reader gave it next; that the pieces together are the input's bytes in
// order is not proved here.
#![tactic(auto)]

ghost use Rattle.std.specs.Prelude.{◌≡◌, IfOk, IsErrOf};
ghost use Rattle.replay.specs.Fed.{TellsPieces};
ghost use Rattle.replay.specs.declared.ReplayError.TheVariants.{Unread, Unwritten};

use inspection::feed::feed;
use inspection::finish::{TOLD_MAX, finish};
use inspection::reader::{IMAGE_BYTES, JOURNAL_MAX, begin};
use layout::IMAGE_WORDS;
use layout::bytes::Bytes;
use reading::{ReadFailed, read_whole};
use std::io::{Read, Write};
use std::{fmt, io};

// The bytes of a piece; and how many pieces hold all bytes that are used.
const PIECE: usize = 65536;

const PIECES: usize = (IMAGE_BYTES + JOURNAL_MAX) / PIECE + 1;

// Why a replay failed.
#[derive(Clone, Copy, Debug, PartialEq, Eq)]
enum ReplayError {
    Unread,
    Unwritten,
}

// A message is its whole line in one write, so that it stays in one piece on a shared stream.
impl fmt::Display for ReplayError {
    fn fmt<W: fmt::Write>(&self, f: &mut fmt::Formatter<W>) -> fmt::Result {
        f.write_str(match self {
            ReplayError::Unread => "replay: the input cannot be read: no verdict\n",
            ReplayError::Unwritten => "replay: the verdict cannot be written\n",
        })
    }
}

impl From<ReadFailed> for ReplayError {
    ghost from_gives = { λ _ e. e ≡ Unread };

    fn from(_failed: ReadFailed) -> ReplayError {
        ReplayError::Unread
    }
}

impl From<io::Error> for ReplayError {
    ghost from_gives = { λ _ e. e ≡ Unwritten };

    fn from(_failed: io::Error) -> ReplayError {
        ReplayError::Unwritten
    }
}

// Feeds the input, and says what is told of it. A piece that is not full is the last; behind a refusal,
// which stays, and behind the bytes that are used, nothing is read.
fn take_input<R: Read>(input: &mut R) -> Result<Bytes<TOLD_MAX>, ReadFailed>
    ensures { IfOk result TellsPieces }
{
    let mut space = [0u8; PIECE];
    let mut saved = [0u8; IMAGE_BYTES];
    let mut scratch = [0u32; IMAGE_WORDS];
    let mut reader = begin();
    for i in 0..PIECES {
        let n = read_whole(input, &mut space)?;
        reader = feed(reader, &mut saved, &mut scratch, &space[..n]);
        if n < PIECE || reader.refusal.is_some() {
            break;
        }
    }
    Ok(finish(reader, &saved, &scratch))
}

// Replays the input, and writes what is told.
fn replay<R: Read, W: Write>(input: &mut R, out: &mut W) -> Result<(), ReplayError>
    ensures silent { IsErrOf result ReplayError.Unread → out.new ≡ out.old }
{
    let told = take_input(input)?;
    out.write_all(&told.bytes[..told.len])?;
    Ok(())
}

// A message that cannot be written either is lost.
fn main(rt: HostRuntime) {
    if let Err(error) = replay(&mut rt.stdin(), &mut rt.stdout()) {
        let _ = write!(rt.stderr(), "{error}");
    }
}
