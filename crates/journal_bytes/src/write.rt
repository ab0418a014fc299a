// An entry's bytes, and an entry into a lent buffer.
ghost use Rattle.std.specs.Prelude.{◌≡◌, ◌∷◌, ◌++◌, ◌+◌, ◌≤◌, length, take};
ghost use Rattle.journal.specs.Numbers.{number_bytes};
ghost use Rattle.journal.specs.Entries.{stash, extension, derive, extend, rotate, destroy, kind_byte, entry_bytes, longest};
ghost use Rattle.journal_bytes.specs.Kinds.{form_by};
ghost use Rattle.journal_bytes.specs.Results.{handle_part, fresh_part, entry_in, taken_result, taken_buffer};

use crate::entry::{
    DERIVE_BYTE, DESTROY_BYTE, DISABLING_BYTE, EXTEND_BYTE, EXTENSION_BYTE, EntryKind, EntryParts,
    LONGEST, ROTATE_BYTE, STASH_BYTE,
};
use layout::HANDLE_BYTES;
use layout::refusals::Refusal;

// A number behind the first bytes of a slice; the bytes then used.
fn put_number(out: &mut [u8], at: usize, x: u32) -> usize
    requires { at + 5 ≤ length out.old }
    ensures out_after { take result out.new ≡ take at out.old ++ number_bytes x }
    ensures upper_bound { result ≤ at + 5 }
{
    let mut v = x;
    // No `for`: the number is divided until one group is left.
    let mut i = at;
    while 128 <= v {
        out[i] = (128 + v % 128) as u8;
        v /= 128;
        i += 1;
    }
    out[i] = v as u8;
    i + 1
}

// Bytes behind the first ones of a slice; the bytes then used.
fn put_bytes(out: &mut [u8], at: usize, bytes: &[u8]) -> usize
    requires { at + length bytes.now ≤ length out.old }
    ensures out_after { take result out.new ≡ take at out.old ++ bytes.now }
    ensures value { result ≡ at + length bytes.now }
{
    let end = at + bytes.len();
    out[at..end].copy_from_slice(bytes);
    end
}

// Each puts an entry at the front of a slice that has room for any, and tells the bytes used.
impl EntryParts {
    fn put_boot(&self, out: &mut [u8]) -> usize
        requires { longest ≤ length out.old }
        ensures out_after { take result out.new ≡ kind_byte (form_by self.now.kind) ∷ (self.now.first ++ self.now.second) }
        ensures upper_bound { result ≤ longest }
    {
        out[0] = u8::from(self.kind);
        let a = put_bytes(out, 1, &self.first);
        put_bytes(out, a, &self.second)
    }

    fn put_stash(&self, out: &mut [u8]) -> usize
        requires { longest ≤ length out.old }
        ensures out_after { take result out.new ≡ entry_bytes (stash self.now.value self.now.first self.now.svn self.now.caller) }
        ensures upper_bound { result ≤ longest }
    {
        out[0] = STASH_BYTE;
        let a = put_number(out, 1, self.value);
        let b = put_bytes(out, a, &self.first);
        let c = put_number(out, b, self.svn);
        put_number(out, c, self.caller)
    }

    fn put_extension(&self, out: &mut [u8]) -> usize
        requires { longest ≤ length out.old }
        ensures out_after { take result out.new ≡ entry_bytes (extension self.now.value self.now.first) }
        ensures upper_bound { result ≤ longest }
    {
        out[0] = EXTENSION_BYTE;
        let a = put_number(out, 1, self.value);
        put_bytes(out, a, &self.first)
    }

    // The handle at which a tree command's data begins, behind its kind.
    fn put_handle(&self, out: &mut [u8], kind: u8) -> usize
        requires { longest ≤ length out.old }
        ensures out_after { take result out.new ≡ kind ∷ handle_part self.now.second }
        ensures value { result ≡ 21 }
    {
        out[0] = kind;
        put_bytes(out, 1, &self.second[..HANDLE_BYTES])
    }

    // The fresh handle and the caller, with which a derive and a rotate end, behind the first bytes.
    fn put_fresh(&self, out: &mut [u8], at: usize) -> usize
        requires { at + 25 ≤ length out.old }
        ensures out_after { take result out.new ≡ (take at out.old ++ fresh_part self.now.second) ++ number_bytes self.now.caller }
        ensures upper_bound { result ≤ at + 25 }
    {
        let a = put_bytes(out, at, &self.second[HANDLE_BYTES..2 * HANDLE_BYTES]);
        put_number(out, a, self.caller)
    }

    fn put_derive(&self, out: &mut [u8]) -> usize
        requires { longest ≤ length out.old }
        ensures out_after { take result out.new ≡ entry_bytes (derive (handle_part self.now.second) self.now.retain self.now.value self.now.first (fresh_part self.now.second) self.now.caller) }
        ensures upper_bound { result ≤ longest }
    {
        let a = self.put_handle(out, DERIVE_BYTE);
        let b = put_number(out, a, self.retain);
        let c = put_number(out, b, self.value);
        let d = put_bytes(out, c, &self.first);
        self.put_fresh(out, d)
    }

    fn put_extend(&self, out: &mut [u8]) -> usize
        requires { longest ≤ length out.old }
        ensures out_after { take result out.new ≡ entry_bytes (extend (handle_part self.now.second) self.now.first self.now.caller) }
        ensures upper_bound { result ≤ longest }
    {
        let a = self.put_handle(out, EXTEND_BYTE);
        let b = put_bytes(out, a, &self.first);
        put_number(out, b, self.caller)
    }

    fn put_rotate(&self, out: &mut [u8]) -> usize
        requires { longest ≤ length out.old }
        ensures out_after { take result out.new ≡ entry_bytes (rotate (handle_part self.now.second) (fresh_part self.now.second) self.now.caller) }
        ensures upper_bound { result ≤ longest }
    {
        let a = self.put_handle(out, ROTATE_BYTE);
        self.put_fresh(out, a)
    }

    fn put_destroy(&self, out: &mut [u8]) -> usize
        requires { longest ≤ length out.old }
        ensures out_after { take result out.new ≡ entry_bytes (destroy (handle_part self.now.second) self.now.caller) }
        ensures upper_bound { result ≤ longest }
    {
        let a = self.put_handle(out, DESTROY_BYTE);
        put_number(out, a, self.caller)
    }

    fn put(&self, out: &mut [u8]) -> usize
        requires { longest ≤ length out.old }
        ensures out_after { take result out.new ≡ entry_bytes (entry_in self.now) }
        ensures upper_bound { result ≤ longest }
    {
        match self.kind {
            EntryKind::ColdBoot => self.put_boot(out),
            EntryKind::Update => self.put_boot(out),
            EntryKind::Disabling => {
                out[0] = DISABLING_BYTE;
                1
            }
            EntryKind::Stash => self.put_stash(out),
            EntryKind::Extension => self.put_extension(out),
            EntryKind::Derive => self.put_derive(out),
            EntryKind::Extend => self.put_extend(out),
            EntryKind::Rotate => self.put_rotate(out),
            EntryKind::Destroy => self.put_destroy(out),
        }
    }
}

// The entry into the front of the buffer, and how many bytes it has. Refused, with nothing written: 23, a
// buffer shorter than the entry.
pub fn write_entry(entry: EntryParts, buffer: &mut [u8]) -> Result<usize, Refusal>
    ensures value { result ≡ taken_result (entry_bytes (entry_in entry)) buffer.old }
    ensures buffer_after { buffer.new ≡ taken_buffer (entry_bytes (entry_in entry)) buffer.old }
{
    let mut draft = [0u8; LONGEST];
    let n = entry.put(&mut draft);
    if buffer.len() < n {
        return Err(Refusal::ShortEntry);
    }
    buffer[..n].copy_from_slice(&draft[..n]);
    Ok(n)
}
