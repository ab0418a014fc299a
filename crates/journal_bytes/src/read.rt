// One entry at the front of a byte slice: each part is read with the bytes behind it.
ghost use Rattle.std.specs.Prelude.{◌≡◌};
ghost use Rattle.journal.specs.Entries.{stash_form, extension_form, derive_form, extend_form, rotate_form, destroy_form};
ghost use Rattle.journal_bytes.specs.Kinds.{form_by};
ghost use Rattle.journal_bytes.specs.Results.{bare, filled, read_view, handles_in, bytes_read, derive_read, parts_read, entry_read};
ghost use Rattle.journal_bytes.specs.declared.entry.EntryKind.TheVariants.{Stash, Extension, Derive, Extend, Rotate, Destroy};
ghost use Rattle.journal_bytes.specs.Fields.{boot_read};

use crate::entry::{DIGEST_BYTES, EntryKind, EntryParts};
use crate::number::take_number;
use layout::HANDLE_BYTES;
use layout::refusals::Refusal;

// A derive's fields, which its entry and its request have.
#[derive(Clone, Copy)]
pub struct DeriveFields {
    pub handle: [u8; HANDLE_BYTES],
    pub retain: u32,
    pub node_type: u32,
    pub digest: [u8; DIGEST_BYTES],
}

// The plain bytes at the front, as many as the array has.
#[tactic(auto, unfolding(crate::specs::Results::bytes_read))]
pub fn take_bytes<const N: usize>(s: &[u8]) -> Result<([u8; N], &[u8]), Refusal>
    ensures { read_view result ≡ bytes_read N s.now }
{
    let (bytes, rest) = s.split_first_chunk::<N>().ok_or(Refusal::CutEntry)?;
    Ok((*bytes, rest))
}

// A derive's handle, retain, type and digest: the request's data has them behind its first byte, and the
// entry behind its kind.
#[tactic(auto, unfolding(crate::specs::Results::derive_read, crate::specs::Results::bytes_read, journal::specs::Fields::read_fields))]
pub fn take_derive_fields(s: &[u8]) -> Result<(DeriveFields, &[u8]), Refusal>
    ensures { read_view result ≡ derive_read s.now }
{
    let (handle, rest) = take_bytes(s)?;
    let (retain, rest) = take_number(rest)?;
    let (node_type, rest) = take_number(rest)?;
    let (digest, rest) = take_bytes(rest)?;
    let fields = DeriveFields {
        handle,
        retain,
        node_type,
        digest,
    };
    Ok((fields, rest))
}

// Two handles, one after the other, in the room of a second digest.
pub fn handles(handle: [u8; HANDLE_BYTES], fresh: [u8; HANDLE_BYTES]) -> [u8; DIGEST_BYTES]
    ensures { result ≡ handles_in handle fresh }
{
    let mut out = [0u8; DIGEST_BYTES];
    out[..HANDLE_BYTES].copy_from_slice(&handle);
    out[HANDLE_BYTES..2 * HANDLE_BYTES].copy_from_slice(&fresh);
    out
}

// Each reads what is behind the byte of a kind into parts that have the kind alone, and gives the bytes behind it.
impl EntryParts {
    // A boot's two digests.
    #[tactic(auto, unfolding(crate::specs::Fields::boot_read, crate::specs::Results::bytes_read, journal::specs::Fields::read_fields))]
    fn take_boot<'a>(&mut self, s: &'a [u8]) -> Result<&'a [u8], Refusal>
        requires { self.old ≡ bare self.old.kind }
        ensures { filled result self.new ≡ boot_read self.old.kind s.now }
    {
        let (first, rest) = take_bytes(s)?;
        let (second, rest) = take_bytes(rest)?;
        self.first = first;
        self.second = second;
        Ok(rest)
    }

    // A stash's type, digest, svn and caller.
    #[tactic(auto, unfolding(crate::specs::Results::parts_of, crate::specs::Results::parts_read, crate::specs::Results::bytes_read, journal::specs::Fields::read_fields))]
    fn take_stash<'a>(&mut self, s: &'a [u8]) -> Result<&'a [u8], Refusal>
        requires { self.old ≡ bare Stash }
        ensures { filled result self.new ≡ parts_read stash_form s.now }
    {
        let (value, rest) = take_number(s)?;
        let (first, rest) = take_bytes(rest)?;
        let (svn, rest) = take_number(rest)?;
        let (caller, rest) = take_number(rest)?;
        self.value = value;
        self.first = first;
        self.svn = svn;
        self.caller = caller;
        Ok(rest)
    }

    // An extension's register and digest.
    #[tactic(auto, unfolding(crate::specs::Results::parts_of, crate::specs::Results::parts_read, crate::specs::Results::bytes_read, journal::specs::Fields::read_fields))]
    fn take_extension<'a>(&mut self, s: &'a [u8]) -> Result<&'a [u8], Refusal>
        requires { self.old ≡ bare Extension }
        ensures { filled result self.new ≡ parts_read extension_form s.now }
    {
        let (value, rest) = take_number(s)?;
        let (first, rest) = take_bytes(rest)?;
        self.value = value;
        self.first = first;
        Ok(rest)
    }

    // A derive's fields, the fresh handle and the caller.
    #[tactic(auto, using(crate::proofs::Entries::derive_split), unfolding(crate::specs::Results::bytes_read, journal::specs::Fields::read_fields))]
    fn take_derive<'a>(&mut self, s: &'a [u8]) -> Result<&'a [u8], Refusal>
        requires { self.old ≡ bare Derive }
        ensures { filled result self.new ≡ parts_read derive_form s.now }
    {
        let (fields, rest) = take_derive_fields(s)?;
        let (fresh, rest) = take_bytes(rest)?;
        let (caller, rest) = take_number(rest)?;
        let first = fields.digest;
        let second = handles(fields.handle, fresh);
        self.value = fields.node_type;
        self.retain = fields.retain;
        self.caller = caller;
        self.first = first;
        self.second = second;
        Ok(rest)
    }

    // An extend's handle, digest and caller.
    #[tactic(auto, unfolding(crate::specs::Results::parts_of, crate::specs::Results::parts_read, crate::specs::Results::bytes_read, journal::specs::Fields::read_fields, layout::specs::Words::zeros))]
    fn take_extend<'a>(&mut self, s: &'a [u8]) -> Result<&'a [u8], Refusal>
        requires { self.old ≡ bare Extend }
        ensures { filled result self.new ≡ parts_read extend_form s.now }
    {
        let (handle, rest) = take_bytes(s)?;
        let (first, rest) = take_bytes(rest)?;
        let (caller, rest) = take_number(rest)?;
        let second = handles(handle, [0u8; HANDLE_BYTES]);
        self.caller = caller;
        self.first = first;
        self.second = second;
        Ok(rest)
    }

    // A rotate's handle, fresh handle and caller.
    #[tactic(auto, unfolding(crate::specs::Results::parts_of, crate::specs::Results::parts_read, crate::specs::Results::bytes_read, journal::specs::Fields::read_fields))]
    fn take_rotate<'a>(&mut self, s: &'a [u8]) -> Result<&'a [u8], Refusal>
        requires { self.old ≡ bare Rotate }
        ensures { filled result self.new ≡ parts_read rotate_form s.now }
    {
        let (handle, rest) = take_bytes(s)?;
        let (fresh, rest) = take_bytes(rest)?;
        let (caller, rest) = take_number(rest)?;
        let second = handles(handle, fresh);
        self.caller = caller;
        self.second = second;
        Ok(rest)
    }

    // A destroy's handle and caller.
    #[tactic(auto, unfolding(crate::specs::Results::parts_of, crate::specs::Results::parts_read, crate::specs::Results::bytes_read, journal::specs::Fields::read_fields, layout::specs::Words::zeros))]
    fn take_destroy<'a>(&mut self, s: &'a [u8]) -> Result<&'a [u8], Refusal>
        requires { self.old ≡ bare Destroy }
        ensures { filled result self.new ≡ parts_read destroy_form s.now }
    {
        let (handle, rest) = take_bytes(s)?;
        let (caller, rest) = take_number(rest)?;
        let second = handles(handle, [0u8; HANDLE_BYTES]);
        self.caller = caller;
        self.second = second;
        Ok(rest)
    }

    // By the kind; a disabling has nothing there.
    fn take<'a>(&mut self, s: &'a [u8]) -> Result<&'a [u8], Refusal>
        requires { self.old ≡ bare self.old.kind }
        ensures { filled result self.new ≡ parts_read (form_by self.old.kind) s.now }
    {
        match self.kind {
            EntryKind::ColdBoot => self.take_boot(s),
            EntryKind::Update => self.take_boot(s),
            EntryKind::Disabling => Ok(s),
            EntryKind::Stash => self.take_stash(s),
            EntryKind::Extension => self.take_extension(s),
            EntryKind::Derive => self.take_derive(s),
            EntryKind::Extend => self.take_extend(s),
            EntryKind::Rotate => self.take_rotate(s),
            EntryKind::Destroy => self.take_destroy(s),
        }
    }
}

// The entry at the front, and how many bytes it took. Refused: 20, a kind that is not listed; 21, a byte
// that no number could have there; 22, the end.
pub fn read_entry(s: &[u8]) -> Result<(EntryParts, usize), Refusal>
    ensures { result ≡ entry_read s.now }
{
    let [kind, fields @ ..] = s else {
        return Err(Refusal::CutEntry);
    };
    let mut entry = EntryParts::bare(EntryKind::try_from(*kind)?);
    let rest = entry.take(fields)?;
    Ok((entry, s.len() - rest.len()))
}
