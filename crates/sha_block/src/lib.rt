// The block step of SHA-384 (FIPS 180-4, section 6.4.2), and a run of blocks of any length.
//
// The round constants are a parameter: a caller makes the table once and lends it down.
#![tactic(auto)]

pub mod blocks;
mod rounds;
pub mod state;
mod words;
