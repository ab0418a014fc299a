// What is kept between pieces of the input, beside the saved image's bytes and the image on which the
// entries are counted.
ghost use Rattle.std.specs.Prelude.{◌≡◌};
ghost use Rattle.inspection.specs.Stages.{begun};

use journal_bytes::entry::LONGEST;
use layout::IMAGE_WORDS;

// The bytes of an image, and how many of the journal's are read.
pub const IMAGE_BYTES: usize = 4 * IMAGE_WORDS;

pub const JOURNAL_MAX: usize = 0x100000000;

// `seen` counts the saved image's bytes. `refusal` is the number of an entry's, which stays; `offset` is where the refused
// entry, or the one that waits, begins in the journal, and `held` bytes of it are in `waiting`.
// (kept: a number and not a `Refusal`, as what is told is a number: any is kept and told as it is)
// (kept: a buffer with its count, as there is no heap; the definitions take the reader as this record)
#[derive(Clone, Copy)]
pub struct Reader {
    pub seen: usize,
    pub refusal: Option<u32>,
    pub offset: usize,
    pub held: usize,
    pub waiting: [u8; LONGEST],
}

// Before the first piece.
pub fn begin() -> Reader
    ensures { result ≡ begun }
{
    Reader {
        seen: 0,
        refusal: None,
        offset: 0,
        held: 0,
        waiting: [0u8; LONGEST],
    }
}
