// An entry of the journal (document 02, §3): one counted work with its inputs, and never the secret.
ghost use Rattle.std.specs.Prelude.{◌≡◌};
ghost use Rattle.journal.specs.Entries.{kind_byte};
ghost use Rattle.journal_bytes.specs.Kinds.{form_by, kind_at};
ghost use Rattle.journal_bytes.specs.Results.{bare};

use layout::refusals::Refusal;

// The number of bytes of a digest, and of the longest entry.
pub const DIGEST_BYTES: usize = 48;

pub const LONGEST: usize = 104;

// The byte of each kind: constants, since `try_from` matches on them and `from` gives them.
pub const COLD_BOOT_BYTE: u8 = 1;

pub const UPDATE_BYTE: u8 = 2;

pub const DISABLING_BYTE: u8 = 3;

pub const STASH_BYTE: u8 = 4;

pub const EXTENSION_BYTE: u8 = 5;

pub const DERIVE_BYTE: u8 = 6;

pub const EXTEND_BYTE: u8 = 7;

pub const ROTATE_BYTE: u8 = 8;

pub const DESTROY_BYTE: u8 = 9;

#[derive(Clone, Copy)]
pub enum EntryKind {
    ColdBoot,
    Update,
    Disabling,
    Stash,
    Extension,
    Derive,
    Extend,
    Rotate,
    Destroy,
}

impl TryFrom<u8> for EntryKind {
    type Error = Refusal;

    ghost try_from_gives = { λ k result. result ≡ kind_at k };

    // Refused: 20, a kind that is not listed.
    #[tactic(auto, unfolding(crate::specs::Kinds::kind_at))]
    fn try_from(kind: u8) -> Result<EntryKind, Refusal> {
        match kind {
            COLD_BOOT_BYTE => Ok(EntryKind::ColdBoot),
            UPDATE_BYTE => Ok(EntryKind::Update),
            DISABLING_BYTE => Ok(EntryKind::Disabling),
            STASH_BYTE => Ok(EntryKind::Stash),
            EXTENSION_BYTE => Ok(EntryKind::Extension),
            DERIVE_BYTE => Ok(EntryKind::Derive),
            EXTEND_BYTE => Ok(EntryKind::Extend),
            ROTATE_BYTE => Ok(EntryKind::Rotate),
            DESTROY_BYTE => Ok(EntryKind::Destroy),
            _ => Err(Refusal::UnlistedKind),
        }
    }
}

impl From<EntryKind> for u8 {
    ghost from_gives = { λ kind k. k ≡ kind_byte (form_by kind) };

    fn from(kind: EntryKind) -> u8 {
        match kind {
            EntryKind::ColdBoot => COLD_BOOT_BYTE,
            EntryKind::Update => UPDATE_BYTE,
            EntryKind::Disabling => DISABLING_BYTE,
            EntryKind::Stash => STASH_BYTE,
            EntryKind::Extension => EXTENSION_BYTE,
            EntryKind::Derive => DERIVE_BYTE,
            EntryKind::Extend => EXTEND_BYTE,
            EntryKind::Rotate => ROTATE_BYTE,
            EntryKind::Destroy => DESTROY_BYTE,
        }
    }
}

// `first` is a boot's runtime digest or the one digest; `second` a boot's manifest digest, or a tree
// command's handle and fresh handle, one after the other; `value` is the type of a stash or a derived child,
// or an extension's register. What a kind lacks is not looked at.
#[derive(Clone, Copy)]
pub struct EntryParts {
    pub kind: EntryKind,
    pub value: u32,
    pub svn: u32,
    pub retain: u32,
    pub caller: u32,
    pub first: [u8; DIGEST_BYTES],
    pub second: [u8; DIGEST_BYTES],
}

impl EntryParts {
    // A kind, and zero for all that it may tell.
    #[tactic(auto, unfolding(layout::specs::Words::zeros))]
    pub(crate) fn bare(kind: EntryKind) -> EntryParts
        ensures { result ≡ bare kind }
    {
        EntryParts {
            kind,
            value: 0,
            svn: 0,
            retain: 0,
            caller: 0,
            first: [0u8; DIGEST_BYTES],
            second: [0u8; DIGEST_BYTES],
        }
    }
}
