// Record kinds without counts: a set of members, and the largest value.
#![tactic(auto)]

pub mod gset;
pub mod max_register;
