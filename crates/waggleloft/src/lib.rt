// The unit's engine for C and Rust firmware, every entry a function over lent slices and numbers that
// hands a number back; include/waggleloft.h is its header. A work is held in words that the caller
// lends (`flat`).
#![tactic(auto)]

pub mod digest;
pub mod openings;
pub mod pieces;
pub mod steps;
