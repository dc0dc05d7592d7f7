// The calls of a cluster, a table of stations and a mailbox, and the replay of a list of them.
#![tactic(auto)]

pub mod answer;
pub mod call;
pub mod mail;
pub mod perform;
pub mod replay;
pub mod unready;
