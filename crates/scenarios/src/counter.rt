// A counter: its amounts, its limit, its words, and words that are refused.
use crate::support;
use crate::support::wrong;
use counters::g_counter::{Amount, GCounter};
use crdt::kind::Crdt;
use words::fault::Fault;
use words::refusal::Refusal;

// What a load answers.
fn load(words: &[u32], place: usize) -> Result<usize, Fault> {
    let mut counter = GCounter::bottom();
    support::load(&mut counter, words, place)
}

fn add(counter: &mut GCounter, station: usize, amount: u32) -> Result<(), Refusal> {
    support::report(counter, station, Amount(amount))
}

#[test]
fn amounts_add_up(rt: HostRuntime) {
    let mut counter = GCounter::bottom();
    assert_eq!(rt; add(&mut counter, 0, 5), Ok(()));
    assert_eq!(rt; add(&mut counter, 0, 2), Ok(()));
    assert_eq!(rt; counter.count(0), 7);
    assert_eq!(rt; counter.total(), 7);
    assert_eq!(rt; add(&mut counter, 15, 65_535), Ok(()));
    assert_eq!(rt; counter.total(), 65_542);
}

#[test]
fn a_delta_holds_one_count(rt: HostRuntime) {
    let mut counter = GCounter::bottom();
    assert_eq!(rt; add(&mut counter, 3, 8), Ok(()));
    assert_eq!(rt; add(&mut counter, 4, 1), Ok(()));
    let mut delta = counter;
    assert_eq!(rt; counter.delta(3, Amount(2), &mut delta), Ok(()));
    assert_eq!(rt; delta.count(3), 10);
    assert_eq!(rt; delta.total(), 10);
    assert_eq!(rt;
        counter.delta(3, Amount(0), &mut delta),
        Err(Refusal::Range)
    );
    assert_eq!(rt; delta.total(), 0);
}

#[test]
fn station_is_looked_at_before_amount(rt: HostRuntime) {
    let mut counter = GCounter::bottom();
    assert_eq!(rt; add(&mut counter, 0, 0), Err(Refusal::Range));
    assert_eq!(rt; add(&mut counter, 0, 65_536), Err(Refusal::Range));
    assert_eq!(rt; add(&mut counter, 16, 1), Err(Refusal::Station));
    assert_eq!(rt; add(&mut counter, 16, 0), Err(Refusal::Station));
    assert_eq!(rt; Refusal::Station.number(), 1);
    assert_eq!(rt; Refusal::Range.number(), 2);
    assert_eq!(rt; counter.total(), 0);
}

#[test]
fn the_limit_is_reached_and_not_passed(rt: HostRuntime) {
    let mut counter = GCounter::from([16_777_214; 16]);
    assert_eq!(rt; add(&mut counter, 9, 2), Err(Refusal::Limit));
    assert_eq!(rt; add(&mut counter, 9, 1), Ok(()));
    assert_eq!(rt; counter.count(9), 16_777_215);
    assert_eq!(rt; add(&mut counter, 9, 1), Err(Refusal::Limit));
    assert_eq!(rt; add(&mut counter, 9, 0), Err(Refusal::Range));
    assert_eq!(rt; counter.total(), 268_435_425);
}

// Two stored counters that stand for the same value give the same answers.
#[test]
fn spare_bits_say_nothing(rt: HostRuntime) {
    let clean = GCounter::from([7; 16]);
    let mut spare = GCounter::from([0xAB00_0007; 16]);
    assert_eq!(rt; spare.count(2), 7);
    assert_eq!(rt; spare.total(), clean.total());
    assert_eq!(rt; spare.size(), clean.size());
    let mut first = [1; 20];
    let mut second = [1; 20];
    assert_eq!(rt; clean.write(&mut first, 2), Ok(19));
    assert_eq!(rt; spare.write(&mut second, 2), Ok(19));
    assert_eq!(rt; first, second);
    let mut delta = clean;
    let mut other = spare;
    assert_eq!(rt; clean.delta(2, Amount(5), &mut delta), Ok(()));
    assert_eq!(rt; spare.delta(2, Amount(5), &mut other), Ok(()));
    assert_eq!(rt; delta.counts, other.counts);
    assert_eq!(rt; delta.count(2), 12);
    assert_eq!(rt; spare.delta(2, Amount(0), &mut other), Err(Refusal::Range));
    assert_eq!(rt;
        spare.delta(16, Amount(1), &mut other),
        Err(Refusal::Station)
    );
    let full = GCounter::from([0x01FF_FFFF; 16]);
    assert_eq!(rt; full.delta(2, Amount(1), &mut other), Err(Refusal::Limit));
    spare.join(&clean);
    assert_eq!(rt; spare.total(), 112);
}

#[test]
fn words_stand_where_they_are_written(rt: HostRuntime) {
    let mut counter = GCounter::bottom();
    assert_eq!(rt; counter.size(), 1);
    assert_eq!(rt; add(&mut counter, 1, 4), Ok(()));
    assert_eq!(rt; add(&mut counter, 15, 3), Ok(()));
    assert_eq!(rt; counter.size(), 3);
    let mut words = [9; 6];
    assert_eq!(rt; counter.write(&mut words, 4), Err(Refusal::Room));
    assert_eq!(rt; words, [9; 6]);
    assert_eq!(rt; counter.write(&mut words, 2), Ok(5));
    assert_eq!(rt; words, [9, 9, 0x6100_0004, 0x6F00_0003, 0x9000_0002, 9]);
    assert_eq!(rt; load(&words, 2), Ok(5));
}

#[test]
fn wrong_words_are_named_by_their_place(rt: HostRuntime) {
    assert_eq!(rt; load(&[], 0), wrong(Refusal::Ended, 0));
    assert_eq!(rt; load(&[0x9000_0000], 7), wrong(Refusal::Ended, 0));
    assert_eq!(rt;
        load(&[0x6000_0001, 0x6100_0001], 0),
        wrong(Refusal::Ended, 0)
    );
    assert_eq!(rt;
        load(&[0x5000_0001, 0x9000_0001], 0),
        wrong(Refusal::Kind, 0)
    );
    assert_eq!(rt;
        load(&[0x6000_0001, 0x0000_0009], 0),
        wrong(Refusal::Kind, 1)
    );
    assert_eq!(rt;
        load(&[0x6100_0003, 0x6000_0004], 0),
        wrong(Refusal::Form, 1)
    );
    assert_eq!(rt;
        load(&[0x6100_0003, 0x6100_0004], 0),
        wrong(Refusal::Form, 1)
    );
    assert_eq!(rt;
        load(&[0x6200_0000, 0x9000_0001], 0),
        wrong(Refusal::Form, 0)
    );
    assert_eq!(rt;
        load(&[0x6200_0001, 0x9000_0002], 0),
        wrong(Refusal::Form, 1)
    );
    assert_eq!(rt;
        load(&[0x6200_0001, 0x9000_0021], 0),
        wrong(Refusal::Form, 1)
    );
    assert_eq!(rt; load(&[0x6200_0001, 0x9000_0001, 0x6300_0001], 0), Ok(2));
}
