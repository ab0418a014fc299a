// The program `replay` as functions over pieces of its input: begin, feed, finish.
#![tactic(auto)]

pub mod feed;
pub mod finish;
pub mod reader;
