// Opening a boot (document 01, "Cold boot" and "Update boot").
#![tactic(auto)]

pub mod cold;
mod inputs;
mod ready;
mod screen;
pub mod update;
