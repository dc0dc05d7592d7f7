// Calls on clusters: a gap and how it is healed, each layer of a fault, and a long history checked the slow way.
use cards::card_record;
use cards::card_record::CardRecord;
use counters::g_counter::Amount;
use counters::vector_clock::VectorClock;
use crdt::kind::Crdt;
use fetches::fault::FetchFault;
use fetches::fetch::fetch;
use mailboxes::mailbox::Mailbox;
use mailboxes::overflow::Overflow;
use page_mailbox::PageMailbox;
use registers::gset::Member;
use registers::max_register::Revision;
use sends::send_delta::send_delta;
use sends::send_full::send_full;
use stations::init::init;
use stations::report::report;
use stations::station::Station;
use std::alloc::Global;
use std::process::Abort;
use std::test::Fail;
use word_mailbox::WordMailbox;
use words::fault::{Fault, Layer};
use words::refusal::Refusal;

fn blank() -> Station<CardRecord> {
    Station {
        number: 9,
        clock: VectorClock::bottom(),
        record: CardRecord::bottom(),
        pending: CardRecord::bottom(),
        sent: 77,
    }
}

fn faulted(
    station: usize,
    message: usize,
    refusal: Refusal,
    place: usize,
    layer: Layer,
) -> Result<usize, FetchFault> {
    Err(FetchFault {
        station,
        message,
        fault: Fault {
            refusal,
            place,
            layer,
        },
    })
}

#[test]
fn a_gap_is_refused_until_it_is_filled(rt: HostRuntime) {
    let mut table = [blank(), blank()];
    let mut memory = [0; 64];
    let mut words = [0; 127];
    let mut mailbox = WordMailbox::open(&mut memory);
    assert_eq!(rt; init(&mut table), Ok(()));
    assert_eq!(rt;
        report(&mut table, 0, card_record::erased(Amount(5))),
        Ok(())
    );
    assert_eq!(rt;
        report(&mut table, 0, card_record::erased(Amount(2))),
        Ok(())
    );
    assert_eq!(rt; send_delta(&mut table, &mut mailbox, 0, &mut words), Ok(9));
    assert_eq!(rt; words[3], 0x6000_0007);
    assert_eq!(rt;
        send_delta(&mut table, &mut mailbox, 0, &mut words),
        Err(Refusal::Nothing)
    );
    assert_eq!(rt;
        report(&mut table, 0, card_record::erased(Amount(1))),
        Ok(())
    );
    assert_eq!(rt; send_delta(&mut table, &mut mailbox, 0, &mut words), Ok(9));
    assert_eq!(rt;
        fetch(&mut table, &mailbox, 1, 1, &mut words),
        faulted(1, 1, Refusal::Gap, 1, Layer::Station)
    );
    assert_eq!(rt; card_record::total_erased(&table[1].record), 0);
    assert_eq!(rt; fetch(&mut table, &mailbox, 1, 0, &mut words), Ok(9));
    assert_eq!(rt; fetch(&mut table, &mailbox, 1, 1, &mut words), Ok(9));
    assert_eq!(rt; card_record::total_erased(&table[1].record), 8);
    assert_eq!(rt; table[1].clock.count(0), 3);
    assert_eq!(rt; table[1].clock.count(1), 0);
}

// Two stations, and a mailbox with a message whose record is wrong, one whose clock is, and one that claims a report of station 0.
fn troubled<M: Mailbox>(rt: &impl Abort, table: &mut [Station<CardRecord>; 2], mailbox: &mut M) {
    assert_eq!(rt; init(table), Ok(()));
    assert_eq!(rt;
        mailbox.put(&[0x1100_0003, 0x9000_0000, 0x8000_0000]),
        Ok(())
    );
    assert_eq!(rt;
        mailbox.put(&[0x1100_0003, 0x9000_0001, 0x8000_0000]),
        Ok(())
    );
    let ahead = [
        0x1100_0008,
        0x5000_0001,
        0x9000_0001,
        0x9000_0000,
        0x9000_0000,
        0x9000_0000,
        0x9000_0000,
        0x8000_0000,
    ];
    assert_eq!(rt; mailbox.put(&ahead), Ok(()));
}

#[test]
fn faults_of_records_messages_and_mailboxes(rt: HostRuntime) {
    let mut table = [blank(), blank()];
    let mut memory = [0; 64];
    let mut words = [0; 127];
    let mut few = [0; 126];
    let mut mailbox = WordMailbox::open(&mut memory);
    troubled(&rt, &mut table, &mut mailbox);
    assert_eq!(rt;
        fetch(&mut table, &mailbox, 0, 0, &mut words),
        faulted(0, 0, Refusal::Kind, 2, Layer::Record)
    );
    assert_eq!(rt;
        fetch(&mut table, &mailbox, 0, 1, &mut words),
        faulted(0, 1, Refusal::Form, 1, Layer::Message)
    );
    assert_eq!(rt;
        fetch(&mut table, &mailbox, 0, 3, &mut words),
        faulted(0, 3, Refusal::Absent, 0, Layer::Mailbox)
    );
    assert_eq!(rt;
        fetch(&mut table, &mailbox, 0, 0, &mut few),
        faulted(0, 0, Refusal::Room, 0, Layer::Mailbox)
    );
}

#[test]
fn faults_of_stations(rt: HostRuntime) {
    let mut table = [blank(), blank()];
    let mut memory = [0; 64];
    let mut words = [0; 127];
    let mut mailbox = WordMailbox::open(&mut memory);
    troubled(&rt, &mut table, &mut mailbox);
    assert_eq!(rt;
        fetch(&mut table, &mailbox, 0, 2, &mut words),
        faulted(0, 2, Refusal::Ahead, 0, Layer::Station)
    );
    assert_eq!(rt;
        fetch(&mut table, &mailbox, 2, 0, &mut words),
        faulted(2, 0, Refusal::Station, 0, Layer::Station)
    );
    table[1].number = 0;
    assert_eq!(rt;
        fetch(&mut table, &mailbox, 1, 0, &mut words),
        faulted(1, 0, Refusal::Station, 0, Layer::Station)
    );
}

// An accepted report: its station, its number there, and its delta.
#[derive(Clone, Copy)]
struct Logged {
    station: usize,
    number: u32,
    delta: CardRecord,
}

// The next of a row of numbers that only look as if they came by chance.
fn next(seed: u32) -> u32 {
    seed.wrapping_mul(1_103_515_245).wrapping_add(12_345)
}

fn chosen(seed: u32) -> card_record::CardReport {
    let amount = Amount(seed / 0x1000 % 100 + 1);
    match seed / 0x100_0000 % 5 {
        0 => card_record::erased(amount),
        1 => card_record::taken(amount),
        2 => card_record::returned(amount),
        3 => card_record::retired(Member(seed / 0x1_0000 % 300)),
        _ => card_record::firmware(Revision(seed / 16)),
    }
}

// A report, noted where it is accepted.
fn note(
    rt: &impl Abort,
    table: &mut [Station<CardRecord>; 16],
    s: usize,
    seed: u32,
    log: &mut Vec<Logged>,
) -> Result<(), Fail> {
    if s > 15 {
        return Ok(());
    }
    let what = chosen(seed);
    let mut delta = CardRecord::bottom();
    let allowed = table[s].record.delta(s, what, &mut delta);
    assert_eq!(rt; report(table, s, what), allowed);
    if allowed.is_ok() {
        let number = table[s].clock.count(s);
        log.push(Logged {
            station: s,
            number,
            delta,
        })?;
    }
    Ok(())
}

// The record of a station against the join of the deltas that its clock covers, by their words.
fn compare(rt: &impl Abort, station: &Station<CardRecord>, log: &Vec<Logged>) {
    let mut sum = CardRecord::bottom();
    for logged in log.iter() {
        if logged.number <= station.clock.count(logged.station) {
            sum.join(&logged.delta);
        }
    }
    let mut expected = [0; 127];
    let mut found = [0; 127];
    assert_eq!(rt;
        sum.write(&mut expected, 0),
        station.record.write(&mut found, 0)
    );
    assert_eq!(rt; expected, found);
}

// One call, of a sort and with numbers that the seed gives.
fn turn<M: Mailbox>(
    rt: &impl Abort,
    table: &mut [Station<CardRecord>; 16],
    mailbox: &mut M,
    seed: u32,
    log: &mut Vec<Logged>,
) -> Result<(), Fail> {
    let mut words = [0; 127];
    let s = (seed / 0x1_0000 % 16) as usize;
    let k = (seed / 0x10_0000 % 24) as usize;
    match seed / 0x1000_0000 {
        0..=4 => note(rt, table, s, seed, log)?,
        5..=7 => {
            let _ = send_delta(table, mailbox, s, &mut words);
        }
        8 => {
            let _ = send_full(table, mailbox, s, &mut words);
        }
        9 => {
            let _ = mailbox.discard(k);
        }
        _ => {
            let _ = fetch(table, mailbox, s, k, &mut words);
        }
    }
    Ok(())
}

// Some hundred calls of every sort; then every record is held against its clock.
fn mixed<M: Mailbox>(rt: &impl Abort, heap: Global, mailbox: &mut M) -> Result<(), Fail> {
    let mut table = [blank(); 16];
    let mut log = Vec::new(heap);
    let mut seed = 2_026;
    assert_eq!(rt; init(&mut table), Ok(()));
    for _ in 0..600 {
        seed = next(seed);
        turn(rt, &mut table, mailbox, seed, &mut log)?;
    }
    assert!(rt; log.len() > 100);
    for station in &table {
        compare(rt, station, &log);
    }
    Ok(())
}

fn over_both<A: Mailbox + Drop, B: Mailbox + Drop>(
    rt: &impl Abort,
    heap: Global,
    first: A,
    second: B,
) -> Result<(), Fail> {
    let mut both = Overflow::new(first, second);
    mixed(rt, heap, &mut both)
}

#[test]
fn a_long_history(rt: HostRuntime) -> Result<(), Fail> {
    let mut words = [0; 400];
    let mut bytes = [0u8; 8192];
    over_both(
        &rt,
        rt.alloc(),
        WordMailbox::open(&mut words),
        PageMailbox::wipe(&mut bytes),
    )
}
