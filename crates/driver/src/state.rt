// What the operations work on.
ghost use Rattle.std.specs.Prelude.{◌≤◌, OnOk};
ghost use Rattle.driver.specs.Run.{memory_words};

use crate::calls::{one_act, stores};
use crate::input::Operation;
use crate::output::{put_digest, put_image};
use crate::parts::{load, put_left, with_part};
use crate::pieces::{feed, with_count};
use layout::IMAGE_WORDS;
use machine::InHand;
use running::Running;
use std::io;
use std::io::Write;

// The most words that are lent, and the most bytes of the input that are used.
pub const MEMORY_WORDS: usize = 4096;

pub const INPUT_BYTES: usize = 1048576;

// The memory, whose first `words` are lent as the image; the work in hand, if there is one; and the running digest.
#[derive(Drop)]
pub(crate) struct State {
    pub memory: [u32; MEMORY_WORDS],
    pub words: usize,
    pub hand: Option<InHand>,
    pub digest: Running,
}

// An image of zeros and a running digest just begun.
pub(crate) fn fresh() -> State
    ensures { result.words ≤ memory_words }
{
    State {
        memory: [0; MEMORY_WORDS],
        words: IMAGE_WORDS,
        hand: None,
        digest: running::begin(),
    }
}

impl State {
    // Makes an operation, and writes what it gives.
    pub(crate) fn operate<W: Write>(&mut self, out: &mut W, given: Operation) -> io::Result<()>
        requires { self.old.words ≤ memory_words }
        ensures { OnOk result (self.new.words ≤ memory_words) }
    {
        let words = self.words;
        let hand = self.hand;
        match given {
            Operation::Lend(image) => {
                self.words = load(image, &mut self.memory);
                self.hand = None;
            }
            Operation::Act(act, size) => {
                self.hand = one_act(out, act, size, &mut self.memory[..words], hand)?;
            }
            Operation::Stores(count) => {
                self.hand = stores(out, count, &mut self.memory[..words], hand)?;
            }
            Operation::Left => put_left(out, hand)?,
            Operation::Set(Ok(part), value) => {
                self.hand = with_part(hand, part, value as usize);
            }
            Operation::Dump => put_image(out, &self.memory[..words])?,
            Operation::Begin => self.digest = running::begin(),
            Operation::Feed(slice) => self.digest = feed(out, self.digest, slice)?,
            Operation::Finish => put_digest(out, self.digest.finish_numbered())?,
            Operation::SetCount(Ok(count), value) => {
                self.digest = with_count(self.digest, count, value);
            }
            // What is set by an unlisted number is nothing.
            Operation::Set(Err(_), _) | Operation::SetCount(Err(_), _) => {}
        }
        Ok(())
    }
}
