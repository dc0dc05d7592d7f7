// Fetching: what a station makes of a message that waits.
#![tactic(auto)]

pub mod fault;
pub mod fetch;
mod hear;
