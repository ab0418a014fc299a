// A piece of work: what it will store, how far it is, its prepared answer, and the inputs that its
// journal entry tells.
#![tactic(auto)]

pub mod entry;
pub mod lent;

ghost use Rattle.std.specs.Prelude.{◌≡◌, length, Ok};
ghost use Rattle.std.specs.Result.{result_and};
ghost use Rattle.work.specs.Entries.{left_of, moved, store_given, store_result, store_image, answer_given, answer_buffer};
ghost use Rattle.work.specs.Parts.{storing, lent_work};
ghost use Rattle.work.specs.Recorded.{entry_result, entry_buffer};

use crate::lent::Lent;
use layout::refusals::Refusal;
use layout::{ANSWER_MAX, INPUT_BYTES, NODE_WORDS, REGISTER_WORDS};
use table::{Kind, Prepared};

// `register` is PCR31 of a stash and PCR2 of a boot, `journey` PCR3 of a boot, `node` the new node of a stash
// or a derived child, a boot's root, or the node of an extend or a rotate as it will be; a destroy has its
// indices there, and every tree command its caller in the locality's word. `position` counts the stores made.
// `inputs` are a boot's two digests, or the one digest and zeros; a tree command has its handle and its fresh
// one behind the first digest. The answer is a buffer with its length: no heap, and C holds a work as these words.
#[derive(Clone, Copy)]
pub struct Work {
    pub kind: Kind,
    pub position: usize,
    pub register: [u32; REGISTER_WORDS],
    pub journey: [u32; REGISTER_WORDS],
    pub node: [u32; NODE_WORDS],
    pub secret: [u32; REGISTER_WORDS],
    pub answer: [u8; ANSWER_MAX],
    pub answer_len: usize,
    pub inputs: [u8; INPUT_BYTES],
}

impl Work {
    // The parts that a store looks at.
    fn lent(&self) -> Lent<'_>
        ensures { lent_work result ≡ storing self.now.kind self.now.position self.now.answer_len self.now.register self.now.journey self.now.node self.now.secret }
    {
        Lent {
            kind: self.kind,
            position: self.position,
            answer_len: self.answer_len,
            words: Prepared {
                register: &self.register,
                journey: &self.journey,
                node: &self.node,
                secret: &self.secret,
            },
        }
    }

    // Stores left; 0 of a work that is not well shaped.
    pub fn left(&self) -> usize
        ensures { result ≡ left_of self.now }
    {
        self.lent().left()
    }

    // One store, and the position moves one on. Refused, with nothing stored and the work as it was: an image of the wrong
    // size; then no store left.
    pub fn advance(&mut self, image: &mut [u32]) -> Result<(), Refusal>
        ensures value { result ≡ store_given self.old image.old }
        ensures self_after { self.new ≡ (store_result self.old image.old).work }
        ensures image_after { image.new ≡ store_image self.old image.old }
    {
        self.lent().store(image)?;
        self.position += 1;
        Ok(())
    }

    // The same store, of a copy that is handed back: the caller's work stays.
    pub fn store(self, image: &mut [u32]) -> Result<Work, Refusal>
        ensures value { result ≡ result_and (store_given self image.old) (Ok (moved self)) }
        ensures image_after { image.new ≡ store_image self image.old }
    {
        let mut next = self;
        next.advance(image)?;
        Ok(next)
    }

    // The answer into the front of the buffer, and its length. Refused, with nothing written: stores left or not
    // well shaped; then a buffer shorter than the answer.
    pub fn answer(&self, buffer: &mut [u8]) -> Result<usize, Refusal>
        ensures value { result ≡ answer_given self.now (length buffer.old) }
        ensures buffer_after { buffer.new ≡ answer_buffer self.now buffer.old }
    {
        if !self.lent().finished() {
            return Err(Refusal::StoresLeft);
        }
        let n = self.answer_len;
        if buffer.len() < n {
            return Err(Refusal::ShortBuffer);
        }
        buffer[..n].copy_from_slice(&self.answer[..n]);
        Ok(n)
    }

    // The journal entry into the front of the buffer, and how many bytes it has. Refused, with nothing written: 7, stores left or not
    // well shaped; then 23, a buffer shorter than the entry.
    pub fn entry(&self, buffer: &mut [u8]) -> Result<usize, Refusal>
        ensures value { result ≡ entry_result self.now buffer.old }
        ensures buffer_after { buffer.new ≡ entry_buffer self.now buffer.old }
    {
        entry::take(&self.lent(), self.inputs, buffer)
    }
}
