// Records of sixteen counts, one a station, joined by the larger count.
#![tactic(auto)]

pub mod counts;
pub mod g_counter;
pub mod vector_clock;
