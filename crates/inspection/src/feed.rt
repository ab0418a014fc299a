// One piece more of the input, byte by byte.
ghost use Rattle.std.specs.Prelude.{ℕ, ◌≡◌, List};
ghost use Rattle.journal.specs.Entries.{read_entry};
ghost use Rattle.inspection.specs.Stages.{stage_of, counting_of, counted_on, journal_byte, one_byte, fed_with};

use crate::reader::{IMAGE_BYTES, JOURNAL_MAX, Reader};
use journal_bytes::entry::LONGEST;
use journal_bytes::read::read_entry;
use layout::refusals::Refusal;
use recount::count::count;

// The entry that the bytes are, counted on the scratch image. Refused as it is read; then 24, where no work of it counts there.
fn count_entry(bytes: &[u8], scratch: &mut [u32]) -> Result<(), Refusal>
    ensures value { result ≡ counting_of scratch.old (read_entry bytes.now) }
    ensures scratch_after { scratch.new ≡ counted_on scratch.old (read_entry bytes.now) }
{
    let (entry, _) = read_entry(bytes)?;
    count(scratch, entry)
}

// A byte of the journal.
fn push_journal(reader: &mut Reader, scratch: &mut [u32], b: u8)
    ensures { (saved : List ℕ) → stage_of reader.new saved scratch.new ≡ journal_byte (stage_of reader.old saved scratch.old) b }
{
    if reader.refusal.is_some() {
        return;
    }
    let held = reader.held;
    if LONGEST <= held {
        reader.refusal = Some(u32::from(Refusal::CutEntry));
        return;
    }
    if JOURNAL_MAX - held <= reader.offset {
        return;
    }
    let end = held + 1;
    let before = reader.waiting[held];
    reader.waiting[held] = b;
    match count_entry(&reader.waiting[..end], scratch) {
        Ok(()) => {
            reader.offset += end;
            reader.held = 0;
        }
        Err(refusal) => match refusal {
            Refusal::CutEntry => reader.held = end,
            _ => {
                reader.refusal = Some(u32::from(refusal));
                reader.waiting[held] = before;
            }
        },
    }
}

// A byte of the input.
fn push(reader: &mut Reader, saved: &mut [u8], scratch: &mut [u32], b: u8)
    ensures { stage_of reader.new saved.new scratch.new ≡ one_byte (stage_of reader.old saved.old scratch.old) b }
{
    let seen = reader.seen;
    if IMAGE_BYTES <= seen {
        push_journal(reader, scratch, b);
        return;
    }
    reader.seen = seen + 1;
    if seen < saved.len() {
        saved[seen] = b;
    }
}

// A piece of the input.
pub fn feed(reader: Reader, saved: &mut [u8], scratch: &mut [u32], piece: &[u8]) -> Reader
    ensures value { result ≡ (fed_with (stage_of reader saved.old scratch.old) piece.now).reader }
    ensures saved_after { saved.new ≡ (fed_with (stage_of reader saved.old scratch.old) piece.now).saved }
    ensures scratch_after { scratch.new ≡ (fed_with (stage_of reader saved.old scratch.old) piece.now).scratch }
{
    let mut r = reader;
    for b in piece {
        push(&mut r, saved, scratch, *b);
    }
    r
}
