// Lends one memory image to the engine, keeps one running digest, makes the operations that stand on
// standard input, and writes what each gave to standard output.
//
// An operation is a letter and its arguments; numbers are little endian, and a byte string stands
// after its length (u16; u32 for a slice). The run ends at the end of the input, at an unknown letter,
// at an operation that the input cuts short and at an image of more than 4,096 words. The input is
// read first: one that cannot be read gets a message on standard error, and nothing is run. Output
// that cannot be written ends the run, with a message on standard error.
#![tactic(auto)]

mod calls;
mod input;
mod output;
mod parts;
mod pieces;
mod state;

ghost use Rattle.std.specs.Prelude.{◌≡◌, length};
ghost use Rattle.driver.specs.Run.{input_bytes};

use crate::input::Input;
use crate::state::{INPUT_BYTES, fresh};
use reading::{ReadFailed, read_whole};
use std::io::{Read, Write};
use std::{fmt, io};

// The operations one after another, until one gave something that cannot be written.
fn run<W: Write>(out: &mut W, bytes: &[u8]) -> io::Result<()> {
    let mut state = fresh();
    let mut input = Input { rest: bytes };
    while let Some(given) = input.next() {
        state.operate(out, given)?;
    }
    Ok(())
}

// Room for the input: of a longer one only this much is used. A function of its own, as the prover runs out of
// stack where it sees an array of that length beside what is made of it.
fn room() -> [u8; INPUT_BYTES]
    ensures { input_bytes ≡ length result }
{
    [0; INPUT_BYTES]
}

// Why a run failed.
#[derive(Clone, Copy, Debug, PartialEq, Eq)]
enum RunError {
    Unread,
    Unwritten,
}

// A message is its whole line in one write, so that it stays in one piece on a shared stream.
impl fmt::Display for RunError {
    fn fmt<W: fmt::Write>(&self, f: &mut fmt::Formatter<W>) -> fmt::Result {
        f.write_str(match self {
            RunError::Unread => "driver: the input cannot be read: nothing was run\n",
            RunError::Unwritten => "driver: the output cannot be written: the run ended there\n",
        })
    }
}

impl From<ReadFailed> for RunError {
    fn from(_failed: ReadFailed) -> RunError {
        RunError::Unread
    }
}

impl From<io::Error> for RunError {
    fn from(_failed: io::Error) -> RunError {
        RunError::Unwritten
    }
}

// Reads the input, and runs its operations.
fn play<R: Read, W: Write>(input: &mut R, out: &mut W) -> Result<(), RunError> {
    let mut space = room();
    let n = read_whole(input, &mut space)?;
    run(out, &space[..n])?;
    Ok(())
}

// A message that cannot be written either is lost.
fn main(rt: HostRuntime) {
    if let Err(error) = play(&mut rt.stdin(), &mut rt.stdout()) {
        let _ = write!(rt.stderr(), "{error}");
    }
}
