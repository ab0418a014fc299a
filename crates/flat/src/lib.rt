// A work held in lent words, for firmware that keeps it there: the words of a work (`words`) and an
// opening into them (`opened`).
#![tactic(auto)]

pub mod opened;
pub mod words;

pub const WORK_WORDS: usize = words::WORK_WORDS;
