// Writing what an operation gave.
ghost use Rattle.std.specs.Prelude.{◌≤◌, ◌++◌, length, OnOk};
ghost use Rattle.std.specs.Int.{w32, to_le_bytes};
ghost use Rattle.std.specs.Io.KnownBytes.{Appends};
ghost use Rattle.driver.specs.Run.{memory_words};

use crate::state::MEMORY_WORDS;
use machine::{Act, Report};
use opening::Outcome;
use sha384::digest::DigestResult;
use std::io;
use std::io::Write;

// What is written for a number of the work in hand where there is none: the output has numbers.
pub const NO_WORK: u32 = 0xFFFFFFFF;

pub(crate) fn put32<W: Write>(out: &mut W, n: u32) -> io::Result<()>
    ensures { OnOk result (Appends (W.contents out.old) (W.contents out.new) (to_le_bytes w32 n)) }
{
    out.write_all(&n.to_le_bytes())
}

// A number that is small, in four bytes.
pub(crate) fn put_count<W: Write>(out: &mut W, n: usize) -> io::Result<()> {
    put32(out, (n % 4294967296) as u32)
}

// A boot that is open: its outcome and the stores left.
fn put_booted<W: Write>(out: &mut W, outcome: Outcome, left: usize) -> io::Result<()> {
    put32(out, 0)?;
    out.write_all(&[(u32::from(outcome) % 256) as u8])?;
    put_count(out, left)
}

// An answer: its number and the whole buffer.
fn put_answer<W: Write>(out: &mut W, number: u32, buffer: &[u8]) -> io::Result<()> {
    put32(out, number)?;
    out.write_all(buffer)
}

// A journal entry: its number, its length and the whole buffer.
fn put_entry<W: Write>(out: &mut W, number: u32, length: usize, buffer: &[u8]) -> io::Result<()> {
    put32(out, number)?;
    put_count(out, length)?;
    out.write_all(buffer)
}

// What an act reports. An opening's number is 0 where it is accepted, and what it gave stands behind.
pub(crate) fn put_report<W: Write>(
    out: &mut W,
    given: Act,
    report: Report,
    buffer: &[u8],
) -> io::Result<()> {
    match report {
        Report::Refused(number) => put32(out, number),
        Report::Opened(left) => {
            put32(out, 0)?;
            put_count(out, left)
        }
        Report::Booted(outcome, left) => put_booted(out, outcome, left),
        Report::Answered(number, _) => put_answer(out, number, buffer),
        Report::Recorded(number, length) => put_entry(out, number, length, buffer),
        Report::NoWork if matches!(given, Act::Entry) => put_entry(out, NO_WORK, 0, buffer),
        Report::NoWork => put_answer(out, NO_WORK, buffer),
        Report::Stored(_) | Report::CutOff => Ok(()),
    }
}

// What a finish of the running digest gives: its number and 48 bytes.
pub(crate) fn put_digest<W: Write>(out: &mut W, done: DigestResult) -> io::Result<()>
    ensures { OnOk result (Appends (W.contents out.old) (W.contents out.new) (to_le_bytes w32 done.number ++ done.bytes)) }
{
    put32(out, done.number)?;
    out.write_all(&done.bytes)
}

// An image: its word count, and its words.
pub(crate) fn put_image<W: Write>(out: &mut W, image: &[u32]) -> io::Result<()>
    requires { length image.now ≤ memory_words }
{
    let mut words = [[0u8; 4]; MEMORY_WORDS];
    for (bytes, word) in words.iter_mut().zip(image) {
        *bytes = word.to_le_bytes();
    }
    put_count(out, image.len())?;
    out.write_all(words[..image.len()].as_flattened())
}
