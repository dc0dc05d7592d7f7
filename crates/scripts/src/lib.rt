// One line of a script: its words, and what it asks for.
#![tactic(auto)]

pub mod command;
pub mod expected;
mod keywords;
mod numbers;
pub mod record_kind;
pub mod store;
mod tokens;
pub mod understand;
pub mod what;
