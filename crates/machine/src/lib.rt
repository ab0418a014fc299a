// One act of demand 3's machine, made through the entries on a lent image, the work in hand and a
// lent buffer. What runs a list by `perform` in a loop runs what the theorem of demand 3 is about.
#![tactic(auto)]

mod calls;

ghost use Rattle.std.specs.Prelude.{◌≡◌};
ghost use Rattle.history.specs.Calls.{act};
ghost use Rattle.opening.specs.Lent.{request_in, boot_in};
ghost use Rattle.machine.specs.Call.{machine_of, op_of, act_in, act_of, step_of, buffer_after};

use crate::calls::{
    answer_call, cold_boot_call, cut_call, entry_call, request_call, store_call, update_boot_call,
};
use opening::Outcome;
use opening::inputs::{BootInputs, RequestInputs};
use work::Work;

// A work in hand, and whether a boot opened it.
#[derive(Clone, Copy)]
pub struct InHand {
    pub work: Work,
    pub boot: bool,
}

// What an act reports: a refusal's number, or what was made, with the stores left; of an answer or a
// journal entry its number and the bytes written. Numbers, as the results of demand 3 (`Result`, history/specs/Calls) have them.
#[derive(Clone, Copy)]
pub enum Report {
    Refused(u32),
    Opened(usize),
    Booted(Outcome, usize),
    Stored(usize),
    Answered(u32, usize),
    Recorded(u32, usize),
    NoWork,
    CutOff,
}

// The work in hand after an act, if there is one, and the act's report.
#[derive(Clone, Copy)]
pub struct Made {
    pub hand: Option<InHand>,
    pub report: Report,
}

// The acts, in the order of their numbers from 0 on.
#[derive(Clone, Copy, Debug, PartialEq, Eq)]
pub enum Op {
    Request,
    UpdateBoot,
    Store,
    ColdBoot,
    Answer,
    Entry,
    PowerCut,
}

// Every number is an act's: one that no act above has is a power cut too.
impl From<u8> for Op {
    ghost from_gives = { λ n op. op ≡ op_of n };

    fn from(n: u8) -> Op {
        match n {
            0 => Op::Request,
            1 => Op::UpdateBoot,
            2 => Op::Store,
            3 => Op::ColdBoot,
            4 => Op::Answer,
            5 => Op::Entry,
            _ => Op::PowerCut,
        }
    }
}

// An act with what it takes beside the image, the work in hand and a buffer; an update boot takes ROM's verdict.
#[derive(Clone, Copy)]
pub enum Act<'a> {
    Request(RequestInputs<'a>),
    UpdateBoot(BootInputs<'a>, bool),
    Store,
    ColdBoot(BootInputs<'a>),
    Answer,
    Entry,
    PowerCut,
}

// One act.
pub fn perform(given: Act, image: &mut [u32], hand: Option<InHand>, buffer: &mut [u8]) -> Made
    ensures step_made { step_of result image.new buffer.new ≡ act (machine_of image.old hand) (act_in given.entry buffer.old) }
    ensures buffer_left { buffer.new ≡ buffer_after (act (machine_of image.old hand) (act_in given.entry buffer.old)).result buffer.old }
{
    match given {
        Act::Request(with) => request_call(&image[..], hand, with),
        Act::UpdateBoot(with, verdict) => update_boot_call(&image[..], hand, with, verdict),
        Act::Store => store_call(image, hand),
        Act::ColdBoot(with) => cold_boot_call(&image[..], hand, with),
        Act::Answer => answer_call(hand, buffer),
        Act::Entry => entry_call(hand, buffer),
        Act::PowerCut => cut_call(hand),
    }
}

// One act, by its number.
pub fn make(
    op: u8,
    image: &mut [u32],
    hand: Option<InHand>,
    request: RequestInputs,
    boot: BootInputs,
    buffer: &mut [u8],
) -> Made
    ensures step_made { step_of result image.new buffer.new ≡ act (machine_of image.old hand) (act_of op (request_in request.entry) (boot_in boot.entry) buffer.old) }
    ensures buffer_left { buffer.new ≡ buffer_after (act (machine_of image.old hand) (act_of op (request_in request.entry) (boot_in boot.entry) buffer.old)).result buffer.old }
{
    match Op::from(op) {
        Op::Request => perform(Act::Request(request), image, hand, buffer),
        Op::UpdateBoot => perform(Act::UpdateBoot(boot, request.verdict), image, hand, buffer),
        Op::Store => perform(Act::Store, image, hand, buffer),
        Op::ColdBoot => perform(Act::ColdBoot(boot), image, hand, buffer),
        Op::Answer => perform(Act::Answer, image, hand, buffer),
        Op::Entry => perform(Act::Entry, image, hand, buffer),
        Op::PowerCut => perform(Act::PowerCut, image, hand, buffer),
    }
}
