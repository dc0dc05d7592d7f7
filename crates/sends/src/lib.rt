// The calls that send a station's messages to a mailbox.
#![tactic(auto)]

mod admit;
pub mod send_delta;
pub mod send_full;
