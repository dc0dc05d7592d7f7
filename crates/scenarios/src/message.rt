// Messages: packed and unpacked, and damaged at every place.
use counters::g_counter::GCounter;
use counters::vector_clock::VectorClock;
use crdt::kind::Crdt;
use messages::header::Header;
use messages::open::open;
use messages::opened::Opened;
use messages::pack::{pack_delta, pack_full};
use messages::unpack::unpack;
use std::test::Fail;
use wire::span::Span;
use words::fault::{Fault, Layer};
use words::refusal::Refusal;

// Station 1 after one report, 30.
const FULL: [u32; 5] = [
    0x1100_0005,
    0x5100_0001,
    0x9000_0001,
    0x6100_001E,
    0x9000_0001,
];

// Station 0 after two reports, 5 and 2.
const DELTA: [u32; 5] = [
    0x2000_0005,
    0x3000_0000,
    0x4000_0002,
    0x6000_0007,
    0x9000_0001,
];

// What unpacking answers, after which clock and counter are as it left them.
fn unpacked(
    words: &[u32],
    clock: &mut VectorClock,
    counter: &mut GCounter,
) -> Result<Header, Fault> {
    unpack(words, clock, counter)
}

// What unpacking answers where one word of a message is another.
fn damaged(message: [u32; 5], place: usize, word: u32) -> Result<Header, Fault> {
    let mut words = message;
    if place < 5 {
        words[place] = word;
    }
    answer(&words)
}

fn answer(words: &[u32]) -> Result<Header, Fault> {
    let mut clock = VectorClock::bottom();
    let mut counter = GCounter::bottom();
    unpacked(words, &mut clock, &mut counter)
}

fn in_message(refusal: Refusal, place: usize) -> Result<Header, Fault> {
    Err(Fault {
        refusal,
        place,
        layer: Layer::Message,
    })
}

fn in_record(refusal: Refusal, place: usize) -> Result<Header, Fault> {
    Err(Fault {
        refusal,
        place,
        layer: Layer::Record,
    })
}

#[test]
fn a_full_message(rt: HostRuntime) {
    let mut clock = VectorClock::bottom();
    clock.counts[1] = 1;
    let mut counter = GCounter::bottom();
    counter.counts[1] = 30;
    let mut words = [8; 7];
    assert_eq!(rt;
        pack_full(1, &clock, &counter, &mut words[0..4]),
        Err(Refusal::Room)
    );
    assert_eq!(rt;
        pack_full(16, &clock, &counter, &mut words),
        Err(Refusal::Station)
    );
    assert_eq!(rt; words, [8; 7]);
    assert_eq!(rt; pack_full(1, &clock, &counter, &mut words), Ok(5));
    assert_eq!(rt; words[5], 8);
    assert_eq!(rt; words[6], 8);
    let mut time = VectorClock::bottom();
    let mut sum = GCounter::bottom();
    assert_eq!(rt;
        unpacked(&words[0..5], &mut time, &mut sum),
        Ok(Header::Full { sender: 1 })
    );
    assert_eq!(rt; time.count(1), 1);
    assert_eq!(rt; sum.total(), 30);
    assert_eq!(rt;
        unpacked(&words, &mut time, &mut sum),
        in_message(Refusal::Length, 0)
    );
    assert_eq!(rt; time.count(1), 0);
    assert_eq!(rt; sum.total(), 0);
}

#[test]
fn a_delta_message(rt: HostRuntime) -> Result<(), Fail> {
    let mut counter = GCounter::bottom();
    counter.counts[0] = 7;
    let Some(span) = Span::new(0, 2) else {
        return Err(Fail::new("a span"));
    };
    let mut words = [8; 5];
    assert_eq!(rt; pack_delta(0, span, &counter, &mut words), Ok(5));
    assert_eq!(rt; words, DELTA);
    assert_eq!(rt; answer(&words), Ok(Header::Delta { sender: 0, span }));
    assert!(rt; Span::new(2, 2).is_none());
    assert!(rt; Span::new(2, 65_536).is_none());
    Ok(())
}

#[test]
fn an_opened_message_is_parts_of_its_words(rt: HostRuntime) -> Result<(), Fail> {
    match open(&FULL) {
        Ok(
            Opened::Full {
                sender,
                clock,
                record,
            },
        ) => {
            assert_eq!(rt; sender, 1);
            assert_eq!(rt; clock.len(), 2);
            assert_eq!(rt; record.len(), 2);
        }
        _ => return Err(Fail::new("a full message")),
    }
    match open(&DELTA) {
        Ok(
            Opened::Delta {
                sender,
                span,
                record,
            },
        ) => {
            assert_eq!(rt; sender, 0);
            assert_eq!(rt; span.from, 0);
            assert_eq!(rt; span.to, 2);
            assert_eq!(rt; record.len(), 2);
            Ok(())
        }
        _ => Err(Fail::new("a delta message")),
    }
}

#[test]
fn a_wrong_head(rt: HostRuntime) {
    assert_eq!(rt; answer(&[]), in_message(Refusal::Ended, 0));
    assert_eq!(rt; damaged(FULL, 0, 0x3100_0005), in_message(Refusal::Kind, 0));
    assert_eq!(rt; damaged(FULL, 0, 0x0100_0005), in_message(Refusal::Kind, 0));
    assert_eq!(rt; damaged(FULL, 0, 0x1100_0105), in_message(Refusal::Form, 0));
    assert_eq!(rt; damaged(FULL, 0, 0x1180_0005), in_message(Refusal::Form, 0));
    assert_eq!(rt;
        damaged(FULL, 0, 0x1100_0004),
        in_message(Refusal::Length, 0)
    );
    assert_eq!(rt;
        damaged(FULL, 0, 0x1100_0006),
        in_message(Refusal::Length, 0)
    );
    assert_eq!(rt; answer(&[0x1100_0001]), in_message(Refusal::Length, 0));
    let mut long = [0x9000_0000; 128];
    long[0] = 0x1100_0080;
    assert_eq!(rt; answer(&long), in_message(Refusal::Length, 0));
}

#[test]
fn a_wrong_clock(rt: HostRuntime) {
    assert_eq!(rt; damaged(FULL, 1, 0x6100_0001), in_message(Refusal::Kind, 1));
    assert_eq!(rt; damaged(FULL, 1, 0x5101_0001), in_message(Refusal::Form, 1));
    assert_eq!(rt; damaged(FULL, 1, 0x5100_0000), in_message(Refusal::Form, 1));
    assert_eq!(rt; damaged(FULL, 2, 0x6000_0001), in_message(Refusal::Kind, 2));
    assert_eq!(rt; damaged(FULL, 2, 0x9000_0002), in_message(Refusal::Form, 2));
    assert_eq!(rt; damaged(FULL, 2, 0x9000_0021), in_message(Refusal::Form, 2));
    assert_eq!(rt; damaged(FULL, 2, 0x5000_0001), in_message(Refusal::Form, 2));
    assert_eq!(rt;
        answer(&[0x1100_0002, 0x5100_0001]),
        in_message(Refusal::Ended, 0)
    );
}

#[test]
fn a_wrong_span(rt: HostRuntime) {
    assert_eq!(rt;
        damaged(DELTA, 1, 0x4000_0000),
        in_message(Refusal::Kind, 1)
    );
    assert_eq!(rt;
        damaged(DELTA, 1, 0x3001_0000),
        in_message(Refusal::Form, 1)
    );
    assert_eq!(rt;
        damaged(DELTA, 2, 0x3000_0002),
        in_message(Refusal::Kind, 2)
    );
    assert_eq!(rt;
        damaged(DELTA, 2, 0x4800_0002),
        in_message(Refusal::Form, 2)
    );
    assert_eq!(rt;
        damaged(DELTA, 2, 0x4000_0000),
        in_message(Refusal::Form, 2)
    );
    assert_eq!(rt;
        damaged(DELTA, 1, 0x3000_0002),
        in_message(Refusal::Form, 2)
    );
    assert_eq!(rt;
        answer(&[0x2000_0002, 0x3000_0000]),
        in_message(Refusal::Ended, 0)
    );
}

#[test]
fn a_wrong_record(rt: HostRuntime) {
    assert_eq!(rt; damaged(FULL, 3, 0x5100_001E), in_record(Refusal::Kind, 3));
    assert_eq!(rt; damaged(FULL, 3, 0x6100_0000), in_record(Refusal::Form, 3));
    assert_eq!(rt; damaged(FULL, 4, 0x8000_0001), in_record(Refusal::Kind, 4));
    assert_eq!(rt; damaged(FULL, 4, 0x9000_0000), in_record(Refusal::Form, 4));
    assert_eq!(rt; damaged(DELTA, 3, 0x7000_0007), in_record(Refusal::Kind, 3));
    assert_eq!(rt; damaged(DELTA, 3, 0x6000_0000), in_record(Refusal::Form, 3));
    assert_eq!(rt; damaged(DELTA, 4, 0x5000_0001), in_record(Refusal::Kind, 4));
    assert_eq!(rt; damaged(DELTA, 4, 0x9000_0041), in_record(Refusal::Form, 4));
    assert_eq!(rt;
        answer(&[0x2000_0003, 0x3000_0000, 0x4000_0002]),
        in_record(Refusal::Ended, 0)
    );
    assert_eq!(rt;
        answer(&[
            0x2000_0005,
            0x3000_0000,
            0x4000_0002,
            0x9000_0000,
            0x9000_0000,
        ],),
        in_message(Refusal::Length, 0)
    );
}
