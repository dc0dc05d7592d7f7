// A set of members: its range, its words, and words that are refused.
use crate::support::{load, report, wrong};
use crdt::kind::Crdt;
use registers::gset::{GSet, Member};
use words::refusal::Refusal;

#[test]
fn members_are_kept(rt: HostRuntime) {
    let mut set = GSet::bottom();
    assert_eq!(rt; report(&mut set, 0, Member(255)), Ok(()));
    assert_eq!(rt; report(&mut set, 1, Member(0)), Ok(()));
    assert_eq!(rt; report(&mut set, 2, Member(255)), Ok(()));
    assert_eq!(rt; report(&mut set, 2, Member(256)), Err(Refusal::Range));
    assert_eq!(rt; report(&mut set, 16, Member(256)), Err(Refusal::Station));
    assert_eq!(rt; set.len(), 2);
    assert!(rt; set.contains(255));
    assert!(rt; set.contains(0));
    assert!(rt; !set.contains(1));
    assert!(rt; !set.contains(256));
    assert!(rt; !set.contains(511));
}

#[test]
fn set_words(rt: HostRuntime) {
    let mut set = GSet::bottom();
    assert_eq!(rt; report(&mut set, 0, Member(255)), Ok(()));
    assert_eq!(rt; report(&mut set, 0, Member(33)), Ok(()));
    // bits above 15 of a stored entry stand for nothing
    set.bits[2] |= 0xFFFF_0000;
    assert_eq!(rt; set.len(), 2);
    let mut words = [1; 4];
    assert_eq!(rt; set.size(), 3);
    assert_eq!(rt; set.write(&mut words, 1), Ok(4));
    assert_eq!(rt; words, [1, 0x7200_0002, 0x7F00_8000, 0x9000_0002]);
    let mut into = set;
    assert_eq!(rt; load(&mut into, &words, 1), Ok(4));
    assert_eq!(rt; into.len(), 2);
    assert_eq!(rt;
        load(&mut into, &[0x7201_0002, 0x9000_0001], 0),
        wrong(Refusal::Form, 0)
    );
    assert_eq!(rt; into.len(), 0);
    assert_eq!(rt;
        load(&mut into, &[0x7200_0002, 0x7200_0004], 0),
        wrong(Refusal::Form, 1)
    );
    assert_eq!(rt;
        load(&mut into, &[0x7200_0000, 0x9000_0001], 0),
        wrong(Refusal::Form, 0)
    );
    assert_eq!(rt;
        load(&mut into, &[0x7200_0002, 0x9000_0000], 0),
        wrong(Refusal::Form, 1)
    );
    assert_eq!(rt;
        load(&mut into, &[0x7200_0002, 0x8000_0000], 0),
        wrong(Refusal::Kind, 1)
    );
    assert_eq!(rt;
        load(&mut into, &[0x7200_0002], 0),
        wrong(Refusal::Ended, 0)
    );
}
