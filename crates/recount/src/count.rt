// Counting an entry on an image: its work is opened there and all its stores are made.
ghost use Rattle.std.specs.Prelude.{◌≡◌, false, [], ◌≤◌, ◌<◌, length};
ghost use Rattle.journal.specs.Entries.{kind_byte, form_of, entry_bytes};
ghost use Rattle.journal_bytes.specs.Results.{fresh_part, entry_in};
ghost use Rattle.opening.specs.Tasks.{request_of};
ghost use Rattle.replaying.specs.Replay.{boot_from};
ghost use Rattle.replaying.specs.Asked.{invoke_asked};
ghost use Rattle.recount.specs.OnImage.{is_update, request_made, update_made, cold_made, made_on, counting_in, image_after};
ghost use Rattle.recount.specs.Within.{without_caller, data_within};

use crate::asked::{disable_bytes, extend_bytes, stash_bytes, tree_bytes};
use boot::cold::boot_cold;
use boot::update::open_update_boot;
use journal_bytes::entry::{DIGEST_BYTES, EntryKind, EntryParts};
use layout::HANDLE_BYTES;
use layout::refusals::Refusal;
use making::run::run_all;
use opening::Outcome;
use opening::commands::{DISABLE_CODE, EXTEND_CODE, INVOKE_CODE, STASH_CODE};
use request::open::open_request;

// An entry has no secret, and registers and nodes do not depend on it: any that a boot takes does.
const ANY_SECRET: [u8; 48] = [1u8; 48];

// What stands behind a tree command's data in its entry: the caller, here one byte, and before it the
// fresh handle of a derive or a rotate, which ends at an index of the two handles.
const CALLER_TAIL: usize = 1;

const FRESH_TAIL: usize = 21;

const FRESH_END: usize = 40;

// A cold boot: all its stores.
fn count_cold(
    image: &mut [u32],
    runtime: [u8; DIGEST_BYTES],
    manifest: [u8; DIGEST_BYTES],
) -> Result<(), Refusal>
    ensures value { result ≡ counting_in (cold_made image.old (boot_from runtime manifest)) }
    ensures image_after { image.new ≡ image_after (cold_made image.old (boot_from runtime manifest)) image.old }
{
    let secret = ANY_SECRET;
    boot_cold(image, &runtime, &manifest, &secret).or(Err(Refusal::Uncounted))
}

fn is_update(outcome: Outcome) -> bool
    ensures { result ≡ is_update outcome }
{
    matches!(outcome, Outcome::Updated)
}

// An update boot that comes to an update: all its stores.
fn count_update(
    image: &mut [u32],
    runtime: [u8; DIGEST_BYTES],
    manifest: [u8; DIGEST_BYTES],
) -> Result<(), Refusal>
    ensures value { result ≡ counting_in (update_made image.old (boot_from runtime manifest)) }
    ensures image_after { image.new ≡ image_after (update_made image.old (boot_from runtime manifest)) image.old }
{
    let secret = ANY_SECRET;
    let booted = open_update_boot(image, &runtime, &manifest, &secret, true);
    let Ok(outcome) = booted.status else {
        return Err(Refusal::Uncounted);
    };
    if !is_update(outcome) {
        return Err(Refusal::Uncounted);
    }
    run_all(booted.work, image);
    Ok(())
}

// A request that is served and stores something: all its stores.
fn count_request(
    image: &mut [u32],
    code: u32,
    bytes: &[u8],
    caller: u32,
    fresh: &[u8],
) -> Result<(), Refusal>
    ensures value { result ≡ counting_in (request_made image.old (request_of code bytes.now caller [] false fresh.now)) }
    ensures image_after { image.new ≡ image_after (request_made image.old (request_of code bytes.now caller [] false fresh.now)) image.old }
{
    let opened = open_request(image, code, bytes, caller, &[], false, fresh);
    let Ok(()) = opened.status else {
        return Err(Refusal::Uncounted);
    };
    let work = opened.work;
    if work.left() == 0 {
        return Err(Refusal::Uncounted);
    }
    run_all(work, image);
    Ok(())
}

// A tree command's entry: the request for it, with the fresh handle that is lent.
fn count_tree(
    image: &mut [u32],
    entry: EntryParts,
    tail: usize,
    fresh: &[u8],
) -> Result<(), Refusal>
    requires bound { 5 ≤ kind_byte (form_of (entry_in (without_caller entry))) }
    requires tail_in_bounds { tail < length (entry_bytes (entry_in (without_caller entry))) }
    ensures value { result ≡ counting_in (request_made image.old (invoke_asked (data_within tail (entry_in (without_caller entry))) fresh.now entry.caller)) }
    ensures image_after { image.new ≡ image_after (request_made image.old (invoke_asked (data_within tail (entry_in (without_caller entry))) fresh.now entry.caller)) image.old }
{
    let asked = tree_bytes(entry, tail);
    let bytes = asked.bytes;
    let end = asked.len;
    count_request(image, INVOKE_CODE, &bytes[..end], entry.caller, fresh)
}

// A derive's or a rotate's, which has its fresh handle.
fn count_fresh(image: &mut [u32], entry: EntryParts) -> Result<(), Refusal>
    requires bound { 5 ≤ kind_byte (form_of (entry_in (without_caller entry))) }
    requires in_bounds { 21 < length (entry_bytes (entry_in (without_caller entry))) }
    ensures value { result ≡ counting_in (request_made image.old (invoke_asked (data_within 21 (entry_in (without_caller entry))) (fresh_part entry.second) entry.caller)) }
    ensures image_after { image.new ≡ image_after (request_made image.old (invoke_asked (data_within 21 (entry_in (without_caller entry))) (fresh_part entry.second) entry.caller)) image.old }
{
    let second = entry.second;
    count_tree(image, entry, FRESH_TAIL, &second[HANDLE_BYTES..FRESH_END])
}

// Counts an entry on an image. Refused with 24 where the unit could not have counted it there; then no word is stored.
pub fn count(image: &mut [u32], entry: EntryParts) -> Result<(), Refusal>
    ensures value { result ≡ counting_in (made_on image.old (entry_in entry)) }
    ensures image_after { image.new ≡ image_after (made_on image.old (entry_in entry)) image.old }
{
    let kind = entry.kind;
    let first = entry.first;
    let second = entry.second;
    match kind {
        EntryKind::ColdBoot => return count_cold(image, first, second),
        EntryKind::Update => return count_update(image, first, second),
        EntryKind::Disabling => return count_request(image, DISABLE_CODE, &disable_bytes(), 0, &[]),
        EntryKind::Stash => {
            let bytes = stash_bytes(entry.value, first, entry.svn);
            return count_request(image, STASH_CODE, &bytes, entry.caller, &[]);
        }
        EntryKind::Extension => {
            let bytes = extend_bytes(entry.value, first);
            return count_request(image, EXTEND_CODE, &bytes, 0, &[]);
        }
        EntryKind::Derive => return count_fresh(image, entry),
        EntryKind::Extend => return count_tree(image, entry, CALLER_TAIL, &[]),
        EntryKind::Rotate => return count_fresh(image, entry),
        EntryKind::Destroy => return count_tree(image, entry, CALLER_TAIL, &[]),
    }
}
