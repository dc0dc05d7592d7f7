// A station: its number, its clock, its record, the deltas that it has not sent yet, and how many of its reports it has sent.
use counters::vector_clock::VectorClock;

// A sent mark above the own clock entry stands for that entry.
#[derive(Clone, Copy)]
pub struct Station<C> {
    pub number: usize,
    pub clock: VectorClock,
    pub record: C,
    pub pending: C,
    pub sent: u32,
}
