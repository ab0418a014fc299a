// The operations that are acts of the machine: openings, stores, answers, journal entries and cuts.
use crate::output::{put_report, put32};
use machine::{Act, InHand, Report, perform};
use std::io;
use std::io::Write;

// An opening, an answer, a journal entry or a cut: writes what it reports. The work in hand then.
pub(crate) fn one_act<W: Write>(
    out: &mut W,
    given: Act,
    size: u16,
    image: &mut [u32],
    hand: Option<InHand>,
) -> io::Result<Option<InHand>> {
    let mut space = [0xA5; 65536];
    let buffer = &mut space[..usize::from(size)];
    let made = perform(given, image, hand, buffer);
    put_report(out, given, made.report, buffer)?;
    Ok(made.hand)
}

// Writes how many stores were made and the number of the refusal that ended them, or 0.
fn put_stores<W: Write>(out: &mut W, made: u32, refusal: u32) -> io::Result<()> {
    put32(out, made)?;
    put32(out, refusal)
}

// Stores one after another, up to a number of them or to the first that is not made. The work in hand then.
pub(crate) fn stores<W: Write>(
    out: &mut W,
    count: u32,
    image: &mut [u32],
    hand: Option<InHand>,
) -> io::Result<Option<InHand>> {
    let mut hand = hand;
    for made in 0..count {
        let next = perform(Act::Store, image, hand, &mut []);
        hand = next.hand;
        match next.report {
            Report::Stored(_) => {}
            Report::Refused(number) => {
                put_stores(out, made, number)?;
                return Ok(hand);
            }
            _ => {
                put_stores(out, made, 0)?;
                return Ok(hand);
            }
        }
    }
    put_stores(out, count, 0)?;
    Ok(hand)
}
