// What the program writes: a number, an offset, and unless refused a verdict and registers.
ghost use Rattle.std.specs.Prelude.{◌+◌, ◌*◌, ◌≤◌, ◌≡◌, ◌∷◌, ◌++◌, length};
ghost use Rattle.layout.specs.Words.{bytes4, bytes8, bytes_in, part};
ghost use Rattle.replaying.specs.Report.{compared_at};
ghost use Rattle.inspection.specs.declared.reader.Reader.{Reader};
ghost use Rattle.inspection.specs.Stages.{stage_of, told_words, told_in, same_from, verdict_number, verdict_at, told};

use crate::reader::{IMAGE_BYTES, Reader};
use layout::bytes::Bytes;
use layout::refusals::Refusal;
use layout::{ATTESTATION_AT, IMAGE_WORDS, MARK_AT, PCR2_AT, REGISTER_WORDS, REGISTERS};
use packing::{byte_of, four, word};
use slices::little_endian::read32;

// Registers and nodes are compared from PCR2 on, to the image's end.
const COMPARED: usize = IMAGE_WORDS - PCR2_AT;

// The bytes of the number and the offset, and of PCR2 to PCR31.
const HEAD_BYTES: usize = 12;

const REGISTER_BYTES: usize = 4 * REGISTER_WORDS * (REGISTERS - 2);

// The most bytes: with a verdict's byte between those.
pub const TOLD_MAX: usize = HEAD_BYTES + 1 + REGISTER_BYTES;

// What a journal of which nothing is refused comes to beside the saved image: no cold boot, a disabling after the
// last one, or PCR2 to PCR31 and nodes that are unlike the image's or alike.
#[derive(Clone, Copy, Debug, PartialEq, Eq)]
enum Verdict {
    Empty,
    Disabled,
    Unlike,
    Alike,
}

impl From<Verdict> for u8 {
    ghost from_gives = { λ v n. n ≡ verdict_number v };

    fn from(verdict: Verdict) -> u8 {
        match verdict {
            Verdict::Empty => 0,
            Verdict::Disabled => 1,
            Verdict::Unlike => 2,
            Verdict::Alike => 3,
        }
    }
}

// A number and an offset, little endian.
fn head(number: u32, offset: usize) -> [u8; HEAD_BYTES]
    ensures { result ≡ bytes4 number ++ bytes8 offset }
{
    let mut out = [0u8; HEAD_BYTES];
    out[..4].copy_from_slice(&four(number));
    out[4..].copy_from_slice(&(offset as u64).to_le_bytes());
    out
}

fn joined(front: [u8; HEAD_BYTES], back: &[u8]) -> Bytes<TOLD_MAX>
    requires { length back.now ≤ 1 + 4 * told_words }
    ensures { result ≡ told_in (front ++ back.now) }
{
    let mut bytes = [0u8; TOLD_MAX];
    bytes[..HEAD_BYTES].copy_from_slice(&front);
    bytes[HEAD_BYTES..HEAD_BYTES + back.len()].copy_from_slice(back);
    Bytes {
        bytes,
        len: HEAD_BYTES + back.len(),
    }
}

fn refused(number: u32, offset: usize) -> Bytes<TOLD_MAX>
    ensures { result ≡ told_in (bytes4 number ++ bytes8 offset) }
{
    joined(head(number, offset), &[])
}

// Whether the saved image's words from PCR2 on are those of the scratch image.
fn same(saved: &[u8], scratch: &[u32]) -> bool
    ensures { result ≡ same_from saved.now scratch.now }
{
    (0..COMPARED).all(|k| read32(saved, 4 * (PCR2_AT + k)) == word(scratch, PCR2_AT + k))
}

// A verdict's byte, and the bytes of PCR2 to PCR31.
fn with_registers(verdict: Verdict, scratch: &[u32]) -> [u8; 1 + REGISTER_BYTES]
    ensures { result ≡ verdict_number verdict ∷ bytes_in (4 * told_words) (part told_words scratch.now compared_at) }
{
    let mut out = [0u8; 1 + REGISTER_BYTES];
    out[0] = u8::from(verdict);
    for k in 0..REGISTER_BYTES {
        out[1 + k] = byte_of(word(scratch, PCR2_AT + k / 4), k % 4);
    }
    out
}

// What is written where nothing is refused.
fn judged(saved: &[u8], scratch: &[u32]) -> Bytes<TOLD_MAX>
    ensures { (reader : Reader) → result ≡ told_in (bytes4 0 ++ (bytes8 0 ++ verdict_at (stage_of reader saved.now scratch.now))) }
{
    let front = head(0, 0);
    if word(scratch, MARK_AT) != 1 {
        return joined(front, &[u8::from(Verdict::Empty)]);
    }
    if word(scratch, ATTESTATION_AT) != 1 {
        return joined(front, &[u8::from(Verdict::Disabled)]);
    }
    if !same(saved, scratch) {
        return joined(front, &with_registers(Verdict::Unlike, scratch));
    }
    joined(front, &with_registers(Verdict::Alike, scratch))
}

// What is written once the input has ended.
#[tactic(auto, unfolding(crate::specs::Stages::told))]
pub fn finish(reader: Reader, saved: &[u8], scratch: &[u32]) -> Bytes<TOLD_MAX>
    ensures { result ≡ told_in (told (stage_of reader saved.now scratch.now)) }
{
    if reader.seen < IMAGE_BYTES {
        return refused(u32::from(Refusal::WrongImage), 0);
    }
    if let Some(number) = reader.refusal {
        return refused(number, reader.offset);
    }
    if reader.held != 0 {
        return refused(u32::from(Refusal::CutEntry), reader.offset);
    }
    judged(saved, scratch)
}
