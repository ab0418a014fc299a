// An entry's work made again on an image, by the unit's own openings and stores.
#![tactic(auto)]

mod asked;
pub mod count;
