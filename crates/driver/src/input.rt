// Reading the operations: a letter and its arguments.
ghost use Rattle.std.specs.Prelude.{◌≡◌, ◌+◌, ◌*◌, ◌<◌, ◌≤◌, length, IfSome, OnSome};
ghost use Rattle.driver.specs.Run.{memory_words};

use crate::parts::{Part, Unlisted};
use crate::pieces::Count;
use crate::state::MEMORY_WORDS;
use machine::Act;
use opening::inputs::{BootInputs, RequestInputs};

// The bytes of an image's words, which the memory has room for.
#[derive(Clone, Copy)]
pub(crate) struct Image<'a> {
    pub bytes: &'a [u8],
    ghost fits: { length bytes.now ≤ 4 * memory_words },
}

// An operation: those on the image and the work in hand, and then those on the running digest. `Act` has the size of its
// buffer, which only an answer or an entry has, `Stores` their count, `Set` and `SetCount` what is set and its value.
#[derive(Clone, Copy)]
pub(crate) enum Operation<'a> {
    Lend(Image<'a>),
    Act(Act<'a>, u16),
    Stores(u32),
    Left,
    Set(Result<Part, Unlisted>, u64),
    Dump,
    Begin,
    Feed(&'a [u8]),
    Finish,
    SetCount(Result<Count, Unlisted>, u64),
}

// The input that is not read yet. Its methods give nothing where the input is cut short.
#[derive(Drop)]
pub(crate) struct Input<'a> {
    pub rest: &'a [u8],
}

impl<'a> Input<'a> {
    // The next bytes, so many.
    fn slice(&mut self, n: usize) -> Option<&'a [u8]>
        ensures no_longer { length self.new.rest.now ≤ length self.old.rest.now }
        ensures len { IfSome result (λ s. length s.now ≡ n) }
    {
        let (front, rest) = self.rest.split_at_checked(n)?;
        self.rest = rest;
        Some(front)
    }

    // The next N bytes: a number's, which `from_le_bytes` reads.
    fn take<const N: usize>(&mut self) -> Option<[u8; N]>
        ensures { OnSome result (length self.new.rest.now + N ≤ length self.old.rest.now) }
    {
        let (front, rest) = self.rest.split_first_chunk::<N>()?;
        self.rest = rest;
        Some(*front)
    }

    // A byte string after its length, two bytes.
    fn string(&mut self) -> Option<&'a [u8]>
        ensures { OnSome result (length self.new.rest.now ≤ length self.old.rest.now) }
    {
        let n = u16::from_le_bytes(self.take()?);
        self.slice(usize::from(n))
    }

    // An image after its word count. One that is too long is none.
    fn image(&mut self) -> Option<Image<'a>>
        ensures { OnSome result (length self.new.rest.now ≤ length self.old.rest.now) }
    {
        let count = u32::from_le_bytes(self.take()?) as usize;
        if count > MEMORY_WORDS {
            return None;
        }
        let bytes = self.slice(4 * count)?;
        Some(Image { bytes })
    }

    // A boot's inputs.
    fn boot(&mut self) -> Option<BootInputs<'a>>
        ensures { OnSome result (length self.new.rest.now ≤ length self.old.rest.now) }
    {
        Some(BootInputs {
            runtime: self.string()?,
            manifest: self.string()?,
            secret: self.string()?,
        })
    }

    // ROM's verdict: a byte, which is 1 where it is good.
    fn verdict(&mut self) -> Option<bool>
        ensures { OnSome result (length self.new.rest.now ≤ length self.old.rest.now) }
    {
        Some(u8::from_le_bytes(self.take()?) == 1)
    }

    // A request: code, caller and verdict, then the handoff table, the request and the fresh handle.
    fn request(&mut self) -> Option<RequestInputs<'a>>
        ensures { OnSome result (length self.new.rest.now ≤ length self.old.rest.now) }
    {
        let code = u32::from_le_bytes(self.take()?);
        let caller = u32::from_le_bytes(self.take()?);
        let verdict = self.verdict()?;
        let handoff = self.string()?;
        let bytes = self.string()?;
        let fresh = self.string()?;
        Some(RequestInputs {
            code,
            bytes,
            caller,
            handoff,
            verdict,
            fresh,
        })
    }

    // The next operation. There is none at the end of the input, at an unknown letter, at an operation that the input
    // cuts short and at an image that is too long.
    pub(crate) fn next(&mut self) -> Option<Operation<'a>>
        ensures { OnSome result (length self.new.rest.now < length self.old.rest.now) }
    {
        let letter = u8::from_le_bytes(self.take()?);
        Some(match letter {
            b'I' => Operation::Lend(self.image()?),
            b'C' => Operation::Act(Act::ColdBoot(self.boot()?), 0),
            b'U' => Operation::Act(Act::UpdateBoot(self.boot()?, self.verdict()?), 0),
            b'R' => Operation::Act(Act::Request(self.request()?), 0),
            b'S' => Operation::Stores(u32::from_le_bytes(self.take()?)),
            b'A' => Operation::Act(Act::Answer, u16::from_le_bytes(self.take()?)),
            b'J' => Operation::Act(Act::Entry, u16::from_le_bytes(self.take()?)),
            b'L' => Operation::Left,
            b'X' => Operation::Act(Act::PowerCut, 0),
            b'W' => Operation::Set(
                Part::try_from(u8::from_le_bytes(self.take()?)),
                u64::from_le_bytes(self.take()?),
            ),
            b'D' => Operation::Dump,
            b'b' => Operation::Begin,
            b'f' => {
                // A slice's length has four bytes.
                let n = u32::from_le_bytes(self.take()?);
                Operation::Feed(self.slice(n as usize)?)
            }
            b'e' => Operation::Finish,
            b'w' => Operation::SetCount(
                Count::try_from(u8::from_le_bytes(self.take()?)),
                u64::from_le_bytes(self.take()?),
            ),
            _ => return None,
        })
    }
}
