// Card and loan records: reports three deep, totals, net, retired groups, firmware.
use crate::support::{load, report, wrong};
use cards::card_record::CardRecord;
use cards::loan_record::LoanRecord;
use cards::verdict::{Verdict, judge};
use cards::{card_record, loan_record};
use counters::g_counter::Amount;
use crdt::kind::Crdt;
use registers::gset::Member;
use registers::max_register::Revision;
use words::refusal::Refusal;

#[test]
fn a_card_record_adds_up(rt: HostRuntime) {
    let mut card = CardRecord::bottom();
    assert_eq!(rt;
        report(&mut card, 0, card_record::erased(Amount(5))),
        Ok(())
    );
    assert_eq!(rt;
        report(&mut card, 0, card_record::erased(Amount(2))),
        Ok(())
    );
    assert_eq!(rt; report(&mut card, 1, card_record::taken(Amount(3))), Ok(()));
    assert_eq!(rt;
        report(&mut card, 2, card_record::returned(Amount(5))),
        Ok(())
    );
    assert_eq!(rt;
        report(&mut card, 2, card_record::retired(Member(255))),
        Ok(())
    );
    assert_eq!(rt;
        report(&mut card, 3, card_record::firmware(Revision(1041))),
        Ok(())
    );
    assert_eq!(rt; card_record::total_erased(&card), 7);
    assert_eq!(rt; card_record::net_spares(&card), -2);
    assert_eq!(rt; card_record::retired_groups(&card), 1);
    assert!(rt; card_record::has_retired(&card, 255));
    assert!(rt; !card_record::has_retired(&card, 256));
    assert_eq!(rt; card_record::highest_firmware(&card), 1041);
}

#[test]
fn card_words(rt: HostRuntime) {
    let mut card = CardRecord::bottom();
    assert_eq!(rt; card.size(), 5);
    assert_eq!(rt;
        report(&mut card, 0, card_record::erased(Amount(7))),
        Ok(())
    );
    let mut words = [1; 7];
    assert_eq!(rt; card.write(&mut words, 1), Ok(7));
    assert_eq!(rt;
        words,
        [
            1,
            0x6000_0007,
            0x9000_0001,
            0x9000_0000,
            0x9000_0000,
            0x9000_0000,
            0x8000_0000,
        ]
    );
    let mut into = CardRecord::bottom();
    assert_eq!(rt; load(&mut into, &words, 1), Ok(7));
    assert_eq!(rt; card_record::total_erased(&into), 7);
    words[5] = 0x9000_0001;
    assert_eq!(rt; load(&mut into, &words, 1), wrong(Refusal::Form, 5));
    assert_eq!(rt; card_record::total_erased(&into), 0);
}

#[test]
fn a_loan_record_adds_up(rt: HostRuntime) {
    let mut loan = LoanRecord::bottom();
    assert_eq!(rt; report(&mut loan, 4, loan_record::lent(Amount(2))), Ok(()));
    assert_eq!(rt;
        report(&mut loan, 5, loan_record::marked(Member(12))),
        Ok(())
    );
    assert_eq!(rt;
        report(&mut loan, 5, loan_record::marked(Member(256))),
        Err(Refusal::Range)
    );
    assert_eq!(rt; loan_record::total_lent(&loan), 2);
    assert_eq!(rt; loan_record::marked_cards(&loan), 1);
    assert!(rt; loan_record::has_marked(&loan, 12));
}

#[test]
fn a_family_is_pulled_at_its_rated_cycles(rt: HostRuntime) {
    assert_eq!(rt; judge(59, 60), Verdict::GoesBack);
    assert_eq!(rt; judge(60, 60), Verdict::Pulled);
}

// Two stored card records that stand for the same value: same size, words, deltas and refusals.
#[test]
fn spare_bits_of_a_card_say_nothing(rt: HostRuntime) {
    let mut clean = CardRecord::bottom();
    clean.left.left.counts[1] = 9;
    clean.right.left.bits[15] = 0x8000;
    clean.right.right.stored = 41;
    let mut spare = clean;
    spare.left.left.counts[1] = 0xFF00_0009;
    spare.left.right.left.counts[3] = 0x0100_0000;
    spare.right.left.bits[15] = 0x0001_8000;
    spare.right.right.stored = 0xF000_0029;
    assert_eq!(rt; spare.size(), clean.size());
    let mut first = [0; 20];
    let mut second = [0; 20];
    assert_eq!(rt; clean.write(&mut first, 3), Ok(10));
    assert_eq!(rt; spare.write(&mut second, 3), Ok(10));
    assert_eq!(rt; first, second);
    let mut delta = clean;
    let mut other = spare;
    assert_eq!(rt;
        clean.delta(1, card_record::erased(Amount(2)), &mut delta),
        Ok(())
    );
    assert_eq!(rt;
        spare.delta(1, card_record::erased(Amount(2)), &mut other),
        Ok(())
    );
    assert_eq!(rt; delta.write(&mut first, 0), Ok(6));
    assert_eq!(rt; other.write(&mut second, 0), Ok(6));
    assert_eq!(rt; first, second);
    assert_eq!(rt;
        spare.delta(1, card_record::retired(Member(256)), &mut other),
        Err(Refusal::Range)
    );
    assert_eq!(rt;
        spare.delta(16, card_record::firmware(Revision(1)), &mut other),
        Err(Refusal::Station)
    );
}
