// A max register: its range, its word, and words that are refused.
use crate::support::{load, report, wrong};
use crdt::kind::Crdt;
use registers::max_register::{MaxRegister, Revision};
use words::refusal::Refusal;

#[test]
fn the_larger_value_stays(rt: HostRuntime) {
    let mut register = MaxRegister::bottom();
    assert_eq!(rt; report(&mut register, 0, Revision(41)), Ok(()));
    assert_eq!(rt; report(&mut register, 15, Revision(17)), Ok(()));
    assert_eq!(rt; register.value(), 41);
    assert_eq!(rt;
        report(&mut register, 0, Revision(268_435_456)),
        Err(Refusal::Range)
    );
    assert_eq!(rt;
        report(&mut register, 16, Revision(268_435_456)),
        Err(Refusal::Station)
    );
    assert_eq!(rt; report(&mut register, 3, Revision(268_435_455)), Ok(()));
    assert_eq!(rt; register.value(), 268_435_455);
}

#[test]
fn register_words(rt: HostRuntime) {
    let spare = MaxRegister {
        stored: 0xA000_0011,
    };
    assert_eq!(rt; spare.value(), 17);
    assert_eq!(rt; spare.size(), 1);
    let mut words = [0; 2];
    assert_eq!(rt; spare.write(&mut words, 2), Err(Refusal::Room));
    assert_eq!(rt; spare.write(&mut words, 1), Ok(2));
    assert_eq!(rt; words, [0, 0x8000_0011]);
    let mut into = spare;
    assert_eq!(rt; load(&mut into, &words, 1), Ok(2));
    assert_eq!(rt; into.value(), 17);
    assert_eq!(rt; load(&mut into, &words, 0), wrong(Refusal::Kind, 0));
    assert_eq!(rt; into.value(), 0);
    assert_eq!(rt; load(&mut into, &words, 2), wrong(Refusal::Ended, 0));
}
