// A vector clock: ticks, its limit, its words, and how two clocks stand to each other.
use crate::support::{load, report, wrong};
use counters::vector_clock::{Tick, VectorClock};
use crdt::kind::Crdt;
use std::cmp::Ordering;
use words::refusal::Refusal;

// The clock with two counts.
fn clock(zero: u32, one: u32) -> VectorClock {
    let mut clock = VectorClock::bottom();
    clock.counts[0] = zero;
    clock.counts[1] = one;
    clock
}

#[test]
fn clocks_are_compared(rt: HostRuntime) {
    assert_eq!(rt; clock(2, 1).partial_cmp(&clock(1, 2)), None);
    assert_eq!(rt; clock(1, 0).partial_cmp(&clock(1, 2)), Some(Ordering::Less));
    assert_eq!(rt;
        clock(1, 2).partial_cmp(&clock(1, 0)),
        Some(Ordering::Greater)
    );
    assert_eq!(rt;
        clock(1, 2).partial_cmp(&clock(1, 2)),
        Some(Ordering::Equal)
    );
    // a stored count stands for its low 16 bits
    assert_eq!(rt;
        clock(0x0001_0001, 2).partial_cmp(&clock(1, 2)),
        Some(Ordering::Equal)
    );
    assert_eq!(rt;
        clock(0x0001_0000, 2).partial_cmp(&clock(1, 2)),
        Some(Ordering::Less)
    );
}

#[test]
fn a_tick_adds_one(rt: HostRuntime) {
    let mut clock = clock(0, 65_534);
    assert_eq!(rt; report(&mut clock, 1, Tick), Ok(()));
    assert_eq!(rt; clock.count(1), 65_535);
    assert_eq!(rt; report(&mut clock, 1, Tick), Err(Refusal::Limit));
    assert_eq!(rt; report(&mut clock, 16, Tick), Err(Refusal::Station));
    assert_eq!(rt; report(&mut clock, 0, Tick), Ok(()));
    assert_eq!(rt; clock.count(0), 1);
    assert_eq!(rt; clock.count(16), 0);
}

#[test]
fn clock_words(rt: HostRuntime) {
    let mut words = [7; 4];
    assert_eq!(rt; clock(3, 0xFFFF_0002).write(&mut words, 0), Ok(3));
    assert_eq!(rt; words, [0x5000_0003, 0x5100_0002, 0x9000_0002, 7]);
    let mut into = clock(9, 9);
    assert_eq!(rt; load(&mut into, &words, 1), wrong(Refusal::Form, 2));
    assert_eq!(rt; into.count(0), 0);
    assert_eq!(rt; load(&mut into, &words, 0), Ok(3));
    assert_eq!(rt; into.count(1), 2);
    assert_eq!(rt;
        load(&mut into, &[0x5001_0003, 0x9000_0001], 0),
        wrong(Refusal::Form, 0)
    );
    assert_eq!(rt;
        load(&mut into, &[0x5000_0000, 0x9000_0001], 0),
        wrong(Refusal::Form, 0)
    );
    assert_eq!(rt;
        load(&mut into, &[0x6000_0003, 0x9000_0001], 0),
        wrong(Refusal::Kind, 0)
    );
    assert_eq!(rt;
        load(&mut into, &[0x5000_0003], 0),
        wrong(Refusal::Ended, 0)
    );
}
