// Card families and the records that are kept of their cards.
#![tactic(auto)]

pub mod card_record;
pub mod examples;
pub mod loan_record;
pub mod verdict;
