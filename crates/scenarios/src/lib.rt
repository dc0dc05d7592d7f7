// Examples that are run. What is expected stands in the documents, or was worked out by hand.
#![tactic(auto)]

#[cfg(test)]
mod card;
#[cfg(test)]
mod clock;
#[cfg(test)]
mod counter;
#[cfg(test)]
mod history;
#[cfg(test)]
mod image;
#[cfg(test)]
mod mailbox;
#[cfg(test)]
mod message;
#[cfg(test)]
mod pair;
#[cfg(test)]
mod register;
#[cfg(test)]
mod script;
#[cfg(test)]
mod set;
#[cfg(test)]
mod support;
