// An opening into lent words: an accepted one writes its work there, a refused one nothing.
ghost use Rattle.flat.specs.Forms.{OpensAs, BootsAs, WritesAs, BootWritesAs};

use crate::words::{WORK_WORDS, WRONG_WORK, write_work};
use opening::{Opened, Outcome};
use work::Work;

// A work and whether it is accepted: where not, any number that is told.
// (kept: a number and not a Result, as the C interface's numbers begin here)
pub fn work_into(work: Work, status: Result<(), u32>, out: &mut [u32]) -> u32
    ensures { WritesAs out.old out.new result work status }
{
    if out.len() != WORK_WORDS {
        return WRONG_WORK;
    }
    if let Err(number) = status {
        return number;
    }
    write_work(work, out);
    0
}

// The same of a boot's work, which comes to an outcome.
// (kept: a number, as of `work_into`)
pub fn boot_work_into(
    work: Work,
    status: Result<Outcome, u32>,
    out: &mut [u32],
    outcome: &mut u32,
) -> u32
    ensures { BootWritesAs out.old out.new outcome.old outcome.new result work status }
{
    if out.len() != WORK_WORDS {
        return WRONG_WORK;
    }
    let told = match status {
        Ok(told) => told,
        Err(number) => return number,
    };
    write_work(work, out);
    *outcome = u32::from(told);
    0
}

// (kept: a number, as of `work_into`)
pub fn open_into(opened: Opened<()>, work: &mut [u32]) -> u32
    ensures { OpensAs work.old work.new result opened }
{
    work_into(opened.work, opened.status.map_err(u32::from), work)
}

// (kept: a number, as of `work_into`)
pub fn boot_into(booted: Opened<Outcome>, work: &mut [u32], outcome: &mut u32) -> u32
    ensures { BootsAs work.old work.new outcome.old outcome.new result booted }
{
    boot_work_into(booted.work, booted.status.map_err(u32::from), work, outcome)
}
