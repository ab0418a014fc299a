// The acts one by one, each with the equation that makes it the machine's step.
ghost use Rattle.std.specs.Prelude.{◌≡◌, cond, List, ℕ, eqb, Some};
ghost use Rattle.work.specs.Entries.{left_of};
ghost use Rattle.history.specs.Calls.{step, act, open_cold, request, update_boot, store, answer, entry, power_cut, after_request, after_boot};
ghost use Rattle.opening.specs.Lent.{request_in, boot_in};
ghost use Rattle.machine.specs.Call.{machine_of, step_of, Makes, buffer_after};

use crate::{InHand, Made, Report};
use boot::cold::open_cold_boot;
use boot::update::open_update_boot;
use opening::inputs::{BootInputs, RequestInputs};
use opening::{Opened, Outcome};
use request::open::open_request;
use work::Work;

// A report beside a work in hand.
fn made(hand: Option<InHand>, report: Report) -> Made
    ensures { result ≡ record { hand = hand; report = report } }
{
    Made { hand, report }
}

// A report beside a work that is now in hand.
fn taken_up(work: Work, boot: bool, report: Report) -> Made
    ensures { result ≡ record { hand = Some (record { work = work; boot = boot }); report = report } }
{
    made(Some(InHand { work, boot }), report)
}

// What a request's opening makes: an accepted one's work becomes the one in hand.
fn after_request(hand: Option<InHand>, opened: Opened<()>) -> Made
    ensures { (image : List ℕ) → Makes result image (after_request (machine_of image hand) opened.work opened.status) }
{
    let Ok(()) = opened.status else {
        return made(hand, Report::Refused(opened.number()));
    };
    let work = opened.work;
    taken_up(work, false, Report::Opened(work.left()))
}

// Opens a request.
pub(crate) fn request_call(image: &[u32], hand: Option<InHand>, with: RequestInputs) -> Made
    ensures { Makes result image.now (step (machine_of image.now hand) (request (request_in with.entry))) }
{
    let RequestInputs {
        code,
        bytes,
        caller,
        handoff,
        verdict,
        fresh,
    } = with;
    after_request(
        hand,
        open_request(image, code, bytes, caller, handoff, verdict, fresh),
    )
}

// What a boot's opening makes: an accepted one's work becomes the one in hand.
fn after_boot(hand: Option<InHand>, booted: Opened<Outcome>) -> Made
    ensures { (image : List ℕ) → Makes result image (after_boot (machine_of image hand) booted.work booted.status) }
{
    let Ok(outcome) = booted.status else {
        return made(hand, Report::Refused(booted.number()));
    };
    let work = booted.work;
    taken_up(work, true, Report::Booted(outcome, work.left()))
}

// Opens an update boot.
pub(crate) fn update_boot_call(
    image: &[u32],
    hand: Option<InHand>,
    with: BootInputs,
    verdict: bool,
) -> Made
    ensures { Makes result image.now (step (machine_of image.now hand) (update_boot (boot_in with.entry) verdict)) }
{
    let BootInputs {
        runtime,
        manifest,
        secret,
    } = with;
    after_boot(
        hand,
        open_update_boot(image, runtime, manifest, secret, verdict),
    )
}

// Opens a cold boot.
pub(crate) fn cold_boot_call(image: &[u32], hand: Option<InHand>, with: BootInputs) -> Made
    ensures { Makes result image.now (act (machine_of image.now hand) (open_cold (boot_in with.entry))) }
{
    let BootInputs {
        runtime,
        manifest,
        secret,
    } = with;
    after_boot(hand, open_cold_boot(image, runtime, manifest, secret))
}

// One store of the work in hand. With none in hand it does nothing.
pub(crate) fn store_call(image: &mut [u32], hand: Option<InHand>) -> Made
    ensures { Makes result image.new (step (machine_of image.old hand) store) }
{
    let Some(held) = hand else {
        return made(hand, Report::NoWork);
    };
    match held.work.store(image) {
        Ok(work) => taken_up(work, held.boot, Report::Stored(work.left())),
        Err(refusal) => made(hand, Report::Refused(u32::from(refusal))),
    }
}

// The answer of the work in hand into a buffer. With none in hand it does nothing.
pub(crate) fn answer_call(hand: Option<InHand>, buffer: &mut [u8]) -> Made
    ensures step_made { (image : List ℕ) → step_of result image buffer.new ≡ step (machine_of image hand) (answer buffer.old) }
    ensures buffer_left { (image : List ℕ) → buffer.new ≡ buffer_after (step (machine_of image hand) (answer buffer.old)).result buffer.old }
{
    let Some(held) = hand else {
        return made(hand, Report::NoWork);
    };
    match held.work.answer(buffer) {
        Ok(written) => made(hand, Report::Answered(0, written)),
        Err(refusal) => made(hand, Report::Answered(u32::from(refusal), 0)),
    }
}

// The journal entry of the work in hand into a buffer. With none in hand it does nothing.
pub(crate) fn entry_call(hand: Option<InHand>, buffer: &mut [u8]) -> Made
    ensures step_made { (image : List ℕ) → step_of result image buffer.new ≡ step (machine_of image hand) (entry buffer.old) }
    ensures buffer_left { (image : List ℕ) → buffer.new ≡ buffer_after (step (machine_of image hand) (entry buffer.old)).result buffer.old }
{
    let Some(held) = hand else {
        return made(hand, Report::NoWork);
    };
    match held.work.entry(buffer) {
        Ok(length) => made(hand, Report::Recorded(0, length)),
        Err(refusal) => made(hand, Report::Recorded(u32::from(refusal), 0)),
    }
}

// A power cut: the work in hand goes.
pub(crate) fn cut_call(hand: Option<InHand>) -> Made
    ensures { (image : List ℕ) → Makes result image (step (machine_of image hand) power_cut) }
{
    made(None, Report::CutOff)
}
