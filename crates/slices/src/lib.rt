// Reading byte slices of any length, at any index: little-endian numbers, and byte strings of 48, also as
// words. What stands past the end is 0.
#![tactic(auto)]

pub mod little_endian;
pub mod parts;
pub mod strings;
