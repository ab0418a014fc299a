// The requests by which a host asks for the work that an entry tells.
ghost use Rattle.std.specs.Prelude.{◌≡◌, [], ◌++◌, ◌+◌, ◌≤◌, ◌<◌, length, take, drop};
ghost use Rattle.layout.specs.Words.{bytes4};
ghost use Rattle.journal.specs.Entries.{kind_byte, form_of, entry_bytes, longest};
ghost use Rattle.journal_bytes.specs.Results.{entry_in};
ghost use Rattle.opening.specs.Rules.{stash_code, disable_code, extend_code, invoke_code};
ghost use Rattle.replaying.specs.Asked.{sealed};
ghost use Rattle.recount.specs.Within.{without_caller, data_within};

use journal_bytes::entry::{DIGEST_BYTES, EntryParts, LONGEST};
use journal_bytes::write::write_entry;
use layout::bytes::Bytes;
use opening::commands::{
    BARE_LENGTH, DISABLE_CODE, EXTEND_CODE, EXTEND_LENGTH, INVOKE_CODE, STASH_CODE, STASH_LENGTH,
};
use packing::four;

// A request's checksum is in front, and its fields are behind it.
const SUM_BYTES: usize = 4;

const VALUE_AT: usize = 4;

const DIGEST_AT: usize = 8;

const SVN_AT: usize = 56;

const SIZE_AT: usize = 4;

const DATA_AT: usize = 8;

// Room for checksum, size and the data of any tree command.
const ROOM: usize = 112;

// The kinds of entries before those of the tree commands 1 to 4.
const KINDS_BEFORE: u8 = 5;

// Puts bytes at an index.
fn put(out: &mut [u8], at: usize, s: &[u8])
    requires { at + length s.now ≤ length out.old }
    ensures { out.new ≡ take at out.old ++ (s.now ++ drop (at + length s.now) out.old) }
{
    out[at..at + s.len()].copy_from_slice(s);
}

// Puts the checksum of the bytes behind its field in front.
fn seal(code: u32, out: &mut [u8])
    requires { 4 ≤ length out.old }
    ensures { out.new ≡ sealed code (drop 4 out.old) }
{
    let sum = four(message::checksum(code, &out[4..]));
    out[..SUM_BYTES].copy_from_slice(&sum);
}

pub(crate) fn disable_bytes() -> [u8; BARE_LENGTH]
    ensures { result ≡ sealed disable_code [] }
{
    four(message::checksum(DISABLE_CODE, &[]))
}

pub(crate) fn stash_bytes(measured: u32, digest: [u8; DIGEST_BYTES], svn: u32) -> [u8; STASH_LENGTH]
    ensures { result ≡ sealed stash_code (bytes4 measured ++ (digest ++ bytes4 svn)) }
{
    let mut out = [0u8; STASH_LENGTH];
    let value = four(measured);
    put(&mut out, VALUE_AT, &value);
    put(&mut out, DIGEST_AT, &digest);
    let last = four(svn);
    put(&mut out, SVN_AT, &last);
    seal(STASH_CODE, &mut out);
    out
}

pub(crate) fn extend_bytes(register: u32, digest: [u8; DIGEST_BYTES]) -> [u8; EXTEND_LENGTH]
    ensures { result ≡ sealed extend_code (bytes4 register ++ digest) }
{
    let mut out = [0u8; EXTEND_LENGTH];
    let value = four(register);
    put(&mut out, VALUE_AT, &value);
    put(&mut out, DIGEST_AT, &digest);
    seal(EXTEND_CODE, &mut out);
    out
}

// Checksum and size in front of a tree command's data.
fn framed(content: &[u8]) -> Bytes<ROOM>
    requires { length content.now ≤ longest }
    ensures bytes_value { take result.len result.bytes ≡ sealed invoke_code (bytes4 (length content.now) ++ content.now) }
    ensures length_in_bounds { result.len ≤ length result.bytes }
{
    let mut out = [0u8; ROOM];
    let size = four(content.len() as u32);
    put(&mut out, SIZE_AT, &size);
    put(&mut out, DATA_AT, content);
    let end = DATA_AT + content.len();
    seal(INVOKE_CODE, &mut out[..end]);
    Bytes {
        bytes: out,
        len: end,
    }
}

// The request for a tree command's entry. Its data is the entry's bytes without the last `tail`, which
// are those of the fresh handle, if any, and of the caller, here one; only the first byte differs.
pub(crate) fn tree_bytes(entry: EntryParts, tail: usize) -> Bytes<ROOM>
    requires bound { 5 ≤ kind_byte (form_of (entry_in (without_caller entry))) }
    requires tail_in_bounds { tail < length (entry_bytes (entry_in (without_caller entry))) }
    ensures bytes_value { take result.len result.bytes ≡ sealed invoke_code (bytes4 (length (data_within tail (entry_in (without_caller entry)))) ++ data_within tail (entry_in (without_caller entry))) }
    ensures length_in_bounds { result.len ≤ length result.bytes }
{
    let bare = EntryParts { caller: 0, ..entry };
    let mut draft = [0u8; LONGEST];
    let length = write_entry(bare, &mut draft).unwrap();
    draft[0] -= KINDS_BEFORE;
    let end = length - tail;
    framed(&draft[..end])
}
