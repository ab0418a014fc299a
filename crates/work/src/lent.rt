// Stores left and one store of a work whose parts are lent: what a store looks at is read where it
// stands, and nothing is copied. Of the prepared words what is left depends on the node's alone, which hold
// the indices of a destroy. `Work`'s methods and a work that is held in another form use these.
ghost use Rattle.std.specs.Prelude.{◌≡◌};
ghost use Rattle.work.specs.Entries.{well_shaped, left_of, finished, store_given, store_image};
ghost use Rattle.work.specs.Parts.{lent_work};

use layout::refusals::Refusal;
use layout::{ANSWER_MAX, IMAGE_WORDS};
use table::{Kind, Prepared, index_ok, number, put_at};

// A work's parts, all but the answer's bytes and the inputs.
#[derive(Clone, Copy)]
pub struct Lent<'a> {
    pub kind: Kind,
    pub position: usize,
    pub answer_len: usize,
    pub words: Prepared<'a>,
}

// In line, so that the struct is never on the stack of a store (bench/stack).
impl<'a> Lent<'a> {
    // Whether the indices, the answer's length and the position are within their bounds.
    #[inline(always)]
    fn shaped(&self) -> bool
        ensures { result ≡ well_shaped (lent_work self.now) }
    {
        index_ok(self.kind, self.words.node)
            && (self.answer_len <= ANSWER_MAX && self.position <= number(self.kind))
    }

    // Whether the last store is made.
    #[inline(always)]
    pub(crate) fn finished(&self) -> bool
        ensures { result ≡ finished (lent_work self.now) }
    {
        self.shaped() && self.position == number(self.kind)
    }

    // Stores left; 0 of a work that is not well shaped.
    #[inline(always)]
    pub fn left(&self) -> usize
        ensures { result ≡ left_of (lent_work self.now) }
    {
        if self.shaped() {
            return number(self.kind) - self.position;
        }
        0
    }

    // Refused: an image of the wrong size; then a work with no store left.
    #[inline(always)]
    fn may_store(&self, image: &[u32]) -> Result<(), Refusal>
        ensures { result ≡ store_given (lent_work self.now) image.now }
    {
        if image.len() != IMAGE_WORDS {
            return Err(Refusal::WrongImage);
        }
        if self.left() == 0 {
            return Err(Refusal::NoStoreLeft);
        }
        Ok(())
    }

    // One store into the image; refused, nothing is stored.
    #[inline(always)]
    pub fn store(&self, image: &mut [u32]) -> Result<(), Refusal>
        ensures value { result ≡ store_given (lent_work self.now) image.old }
        ensures image_after { image.new ≡ store_image (lent_work self.now) image.old }
    {
        self.may_store(image)?;
        let next = put_at(self.kind, self.position, &self.words);
        let at = next.address;
        image[at] = next.value;
        Ok(())
    }
}
