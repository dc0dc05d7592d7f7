// Messages between stations: packing them into given words, and opening and unpacking the words of one.
#![tactic(auto)]

pub mod header;
pub mod open;
pub mod opened;
pub mod pack;
mod read;
pub mod unpack;
