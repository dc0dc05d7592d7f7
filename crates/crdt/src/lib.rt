// Replicated records: the interface of a record kind, and pairs of kinds.
#![tactic(auto)]

pub mod kind;
pub mod pair;
