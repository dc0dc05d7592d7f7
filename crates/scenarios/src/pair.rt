// Pairs: refusals on one side, and a nested pair of more words than a message has.
use crate::support::{load, report, wrong};
use counters::g_counter::{Amount, GCounter};
use counters::vector_clock::VectorClock;
use crdt::kind::Crdt;
use crdt::pair::Pair;
use either::{Left, Right};
use messages::pack::pack_full;
use registers::gset::{GSet, Member};
use words::refusal::Refusal;

type Two = Pair<GCounter, GSet>;

type Four = Pair<Pair<GCounter, GCounter>, Pair<GCounter, GCounter>>;

type Eight = Pair<Four, Four>;

#[test]
fn a_report_is_for_one_side(rt: HostRuntime) {
    let mut pair = Two::bottom();
    assert_eq!(rt; report(&mut pair, 0, Left(Amount(5))), Ok(()));
    assert_eq!(rt; report(&mut pair, 0, Right(Member(9))), Ok(()));
    let mut delta = pair;
    assert_eq!(rt; pair.delta(0, Left(Amount(2)), &mut delta), Ok(()));
    assert_eq!(rt; delta.left.total(), 7);
    assert_eq!(rt; delta.right.len(), 0);
    assert_eq!(rt;
        pair.delta(0, Right(Member(300)), &mut delta),
        Err(Refusal::Range)
    );
    assert_eq!(rt; delta.left.total(), 0);
    assert_eq!(rt;
        pair.delta(16, Right(Member(300)), &mut delta),
        Err(Refusal::Station)
    );
}

// Where only the right side does not fit, the words of the left are not written either.
#[test]
fn a_pair_is_written_whole_or_not(rt: HostRuntime) {
    let mut pair = Two::bottom();
    assert_eq!(rt; report(&mut pair, 0, Left(Amount(5))), Ok(()));
    let mut words = [3; 3];
    assert_eq!(rt; pair.write(&mut words, 1), Err(Refusal::Room));
    assert_eq!(rt; words, [3; 3]);
    assert_eq!(rt; pair.write(&mut words, 0), Ok(3));
    assert_eq!(rt; words, [0x6000_0005, 0x9000_0001, 0x9000_0000]);
    let mut into = pair;
    assert_eq!(rt;
        load(&mut into, &[0x6000_0005, 0x9000_0001, 0x6000_0000], 0),
        wrong(Refusal::Kind, 2)
    );
    assert_eq!(rt; into.left.total(), 0);
    assert_eq!(rt;
        load(&mut into, &[0x6000_0005, 0x9000_0001], 0),
        wrong(Refusal::Ended, 0)
    );
}

#[test]
fn more_than_127_words_are_refused(rt: HostRuntime) {
    let all = GCounter::from([1; 16]);
    let two = Pair {
        left: all,
        right: all,
    };
    let four = Pair {
        left: two,
        right: two,
    };
    let eight: Eight = Pair {
        left: four,
        right: four,
    };
    assert_eq!(rt; four.size(), 68);
    assert_eq!(rt; eight.size(), 128);
    let mut words = [5; 200];
    assert_eq!(rt; eight.write(&mut words, 0), Err(Refusal::Long));
    assert_eq!(rt; eight.write(&mut words, 199), Err(Refusal::Long));
    assert_eq!(rt; words, [5; 200]);
    let clock = VectorClock::bottom();
    assert_eq!(rt;
        pack_full(1, &clock, &eight, &mut words),
        Err(Refusal::Long)
    );
    assert_eq!(rt; words, [5; 200]);
    assert_eq!(rt; four.write(&mut words, 133), Err(Refusal::Room));
    assert_eq!(rt; words, [5; 200]);
    assert_eq!(rt; four.write(&mut words, 132), Ok(200));
}
