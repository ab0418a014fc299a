// Opening a request (document 01, "Mailbox"): a module for each command.
#![tactic(auto)]

mod answer;
mod command;
mod disable;
mod extend;
mod identity;
mod invoke;
pub mod open;
mod register;
mod stash;
mod verify;
