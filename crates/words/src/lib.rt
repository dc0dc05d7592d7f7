// Words of 32 bits: their kinds and forms, the reader that walks over them, and the faults that are found in them.
#![tactic(auto)]

pub mod fault;
pub mod reader;
pub mod refusal;
pub mod word;
