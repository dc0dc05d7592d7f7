// What is wrong with a card image, for someone who looks at it, and the image as a station of the other byte order would have written it.
#![tactic(auto)]

pub mod diagnose;
pub mod diagnosis;
pub mod turns;
