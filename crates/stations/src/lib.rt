// Stations as they are stored, and what one station does by itself.
#![tactic(auto)]

pub mod init;
pub mod report;
pub mod station;
pub mod table;
pub mod unsent;
