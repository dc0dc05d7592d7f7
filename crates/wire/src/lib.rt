// Messages as values, their words, and the proof that the two are one to one; and the words before a message's clock or
// record: its head and its span. Packing and opening stand in the crate above, over these definitions.
#![tactic(auto)]

pub mod head;
pub mod reading;
pub mod span;
