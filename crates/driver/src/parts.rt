// The operations on the image and on the work in hand.
ghost use Rattle.std.specs.Prelude.{◌≤◌};
ghost use Rattle.driver.specs.Run.{memory_words};

use crate::input::Image;
use crate::output::{NO_WORK, put_count, put32};
use crate::state::MEMORY_WORDS;
use layout::NODES;
use machine::InHand;
use std::io;
use std::io::Write;
use table::Kind;
use table::coding::{Coded, decode, encode};
use work::Work;

// The number of a destroy's first freed index as a part.
const FREED_PART: u8 = 16;

// A part of a work in hand. The first index is the node of a stash, a derive, an extend or a rotate, an update's root or
// an extension's register; the second the node that a stash or a derive retires; a freed one is one of a destroy's.
#[derive(Clone, Copy, Debug, PartialEq, Eq)]
pub(crate) enum Part {
    Position,
    First,
    Second,
    AnswerLen,
    FreedCount,
    Freed(usize),
}

// A number that no part or count has.
#[derive(Clone, Copy, Debug, PartialEq, Eq)]
pub(crate) struct Unlisted(pub u8);

impl TryFrom<u8> for Part {
    type Error = Unlisted;

    fn try_from(n: u8) -> Result<Part, Unlisted> {
        match n {
            0 => Ok(Part::Position),
            1 => Ok(Part::First),
            2 => Ok(Part::Second),
            3 => Ok(Part::AnswerLen),
            4 => Ok(Part::FreedCount),
            FREED_PART.. => Ok(Part::Freed(usize::from(n - FREED_PART))),
            _ => Err(Unlisted(n)),
        }
    }
}

// An image's words into the front of the memory. How many they are.
pub(crate) fn load(image: Image, memory: &mut [u32; MEMORY_WORDS]) -> usize
    ensures { result ≤ memory_words }
{
    let (words, _) = image.bytes.as_chunks();
    for (word, bytes) in memory.iter_mut().zip(words) {
        *word = u32::from_le_bytes(*bytes);
    }
    words.len()
}

// Writes how many stores the work in hand has left.
pub(crate) fn put_left<W: Write>(out: &mut W, hand: Option<InHand>) -> io::Result<()> {
    match hand {
        Some(held) => put_count(out, held.work.left()),
        None => put32(out, NO_WORK),
    }
}

// A kind with one index set, or the number of nodes that a destroy frees, which is no index. A kind that has no such
// part stays.
fn with_index(kind: Kind, part: Part, value: usize) -> Kind {
    let coded = encode(kind);
    let changed = match (kind, part) {
        (Kind::Destroy(_), Part::First) => coded,
        (Kind::Destroy(_), Part::FreedCount) | (_, Part::First) => Coded {
            first: value,
            ..coded
        },
        (_, Part::Second) => Coded {
            second: value,
            ..coded
        },
        _ => coded,
    };
    decode(changed)
}

// A destroy with another freed index: one that fits no word is beyond the nodes like any other, and takes the highest.
fn with_freed(work: Work, i: usize, value: usize) -> Work {
    let mut changed = work;
    if i < NODES && matches!(work.kind, Kind::Destroy(_)) {
        changed.node[i] = u32::try_from(value).unwrap_or(u32::MAX);
    }
    changed
}

// The work in hand with one part set.
pub(crate) fn with_part(hand: Option<InHand>, part: Part, value: usize) -> Option<InHand> {
    let held = hand?;
    let work = held.work;
    let work = match part {
        Part::Position => Work {
            position: value,
            ..work
        },
        Part::AnswerLen => Work {
            answer_len: value,
            ..work
        },
        Part::Freed(i) => with_freed(work, i, value),
        Part::First | Part::Second | Part::FreedCount => Work {
            kind: with_index(work.kind, part, value),
            ..work
        },
    };
    Some(InHand { work, ..held })
}
