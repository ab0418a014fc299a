// A work's journal entry (document 02, §3), of the parts that it tells: the kind, the new node, the inputs.
ghost use Rattle.std.specs.Prelude.{◌≡◌, true, [], ◌∷◌, ◌<◌};
ghost use Rattle.table.specs.Table.{number_of, index_ok};
ghost use Rattle.journal_bytes.specs.declared.entry.EntryKind.TheVariants.{Disabling};
ghost use Rattle.journal_bytes.specs.Results.{parts_with, entry_in};
ghost use Rattle.work.specs.Parts.{recording};
ghost use Rattle.work.specs.Recorded.{first_digest, second_digest, entries_for, entry_result, entry_buffer};

use crate::lent::Lent;
use journal_bytes::entry::{DIGEST_BYTES, EntryKind, EntryParts};
use journal_bytes::write::write_entry;
use layout::refusals::Refusal;
use layout::{INPUT_BYTES, LOCALITY_AT, SVN_AT, TYPE_AT};
use packing::word;
use slices::strings::bytes_of;
use table::{Kind, number};

// Whether a derive keeps its parent's handle: numbers, since an entry that is read has any number there (`read_entry`).
const RETAINED: u32 = 1;

const REPLACED: u32 = 0;

// What every kind's entry has, the digests among the inputs.
fn told(inputs: [u8; INPUT_BYTES]) -> EntryParts
    ensures { result ≡ parts_with Disabling 0 0 0 0 (first_digest inputs) (second_digest inputs) }
{
    EntryParts {
        kind: EntryKind::Disabling,
        value: 0,
        svn: 0,
        retain: 0,
        caller: 0,
        first: bytes_of(&inputs, 0),
        second: bytes_of(&inputs, DIGEST_BYTES),
    }
}

// The entry of a kind of work that has something to store.
fn entry_of(kind: Kind, node: &[u32], inputs: [u8; INPUT_BYTES]) -> EntryParts
    requires { (index_ok kind node.now ≡ true) × (0 < number_of kind) }
    ensures { entries_for kind node.now inputs ≡ entry_in result ∷ [] }
{
    let value = word(node, TYPE_AT);
    let caller = word(node, LOCALITY_AT);
    let told = told(inputs);
    match kind {
        Kind::Nothing => told,
        Kind::Disabling => told,
        Kind::Stash(_) => EntryParts {
            kind: EntryKind::Stash,
            value,
            svn: word(node, SVN_AT),
            caller,
            ..told
        },
        Kind::Update(_) => EntryParts {
            kind: EntryKind::Update,
            ..told
        },
        Kind::ColdBoot => EntryParts {
            kind: EntryKind::ColdBoot,
            ..told
        },
        Kind::Extension(register) => EntryParts {
            kind: EntryKind::Extension,
            value: register as u32,
            ..told
        },
        Kind::Derive(_) => EntryParts {
            kind: EntryKind::Derive,
            value,
            retain: RETAINED,
            caller,
            ..told
        },
        Kind::Replace(_) => EntryParts {
            kind: EntryKind::Derive,
            value,
            retain: REPLACED,
            caller,
            ..told
        },
        Kind::Extend(_) => EntryParts {
            kind: EntryKind::Extend,
            caller,
            ..told
        },
        Kind::Rotate(_) => EntryParts {
            kind: EntryKind::Rotate,
            caller,
            ..told
        },
        Kind::Destroy(_) => EntryParts {
            kind: EntryKind::Destroy,
            caller,
            ..told
        },
    }
}

// The entry into the front of the buffer, and how many bytes it has. Refused, with nothing written: 7, stores left or not well shaped;
// then 23, a buffer shorter than the entry. A work with nothing to store has an entry of no bytes.
pub fn take(work: &Lent, inputs: [u8; INPUT_BYTES], buffer: &mut [u8]) -> Result<usize, Refusal>
    ensures value { result ≡ entry_result (recording work.now.kind work.now.position work.now.answer_len work.now.words.node.now inputs) buffer.old }
    ensures buffer_after { buffer.new ≡ entry_buffer (recording work.now.kind work.now.position work.now.answer_len work.now.words.node.now inputs) buffer.old }
{
    if !work.finished() {
        return Err(Refusal::StoresLeft);
    }
    if number(work.kind) == 0 {
        return Ok(0);
    }
    write_entry(entry_of(work.kind, work.words.node, inputs), buffer)
}
