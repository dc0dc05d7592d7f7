// A row of sixteen numbers, and its words: the entries that are not 0 by ascending number, then an end word.
#![tactic(auto)]

pub mod chosen;
mod item;
pub mod kind;
pub mod load;
pub mod write;
