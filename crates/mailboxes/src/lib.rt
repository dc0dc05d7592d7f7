// Mailboxes: messages that wait in a row. The interface, and a mailbox made of any two.
#![tactic(auto)]

pub mod mailbox;
pub mod overflow;
