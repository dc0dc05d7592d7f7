// What lines of a script ask for.
use scripts::command::Command;
use scripts::expected::Expected;
use scripts::record_kind::RecordKind;
use scripts::store::{MailboxShape, Store};
use scripts::understand::understand;
use scripts::what::What;

// A line, and what it asks for.
#[derive(Clone, Copy)]
struct Case(&'static str, Result<Option<Command>, Expected>);

const LINES: [Case; 24] = [
    Case("", Ok(None)),
    Case(" \t\r# report 0 erased 5", Ok(None)),
    Case("record loan", Ok(Some(Command::Record(RecordKind::Loan)))),
    Case("stations 100", Ok(Some(Command::Stations(100)))),
    Case("stations 101", Err(Expected::Stations)),
    Case(
        "mailbox overflow words 10 image#x",
        Ok(Some(Command::Mailbox(MailboxShape::Overflow(Store::Words(10), Store::Image)))),
    ),
    Case("mailbox pages 1000001", Err(Expected::Size)),
    Case("mailbox overflow words 1 overflow", Err(Expected::Store)),
    Case(
        "report 00 erased 4294967295",
        Ok(Some(Command::Report {
            station: 0,
            what: What::Erased,
            value: 4_294_967_295,
        })),
    ),
    Case("report 0 erased 4294967296", Err(Expected::Value)),
    Case("report 0 eraser 1", Err(Expected::What)),
    Case(
        "send\tdelta  15",
        Ok(Some(Command::SendDelta { station: 15 })),
    ),
    Case("send both 1", Err(Expected::Send)),
    Case(
        "fetch 18446744073709551615 2",
        Ok(Some(Command::Fetch {
            station: 18_446_744_073_709_551_615,
            message: 2,
        })),
    ),
    Case("fetch 18446744073709551616 2", Err(Expected::Station)),
    Case("fetch 1 000000000000000000002", Err(Expected::Message)),
    Case("fetch 1 2 3", Err(Expected::End)),
    Case("count", Ok(Some(Command::Count))),
    Case("Count", Err(Expected::Command)),
    Case("fits -1", Err(Expected::Length)),
    Case(
        "compare 2 3",
        Ok(Some(Command::Compare { left: 2, right: 3 })),
    ),
    Case("put", Ok(Some(Command::Put { len: 0 }))),
    Case("put 100000000", Err(Expected::Words)),
    Case("put 1 g", Err(Expected::Words)),
];

#[test]
fn what_lines_ask_for(rt: HostRuntime) {
    for case in &LINES {
        let mut words = [0; 255];
        assert_eq!(rt;
            understand(case.0.as_bytes(), &mut words),
            case.1,
            "{}",
            case.0
        );
    }
}

#[test]
fn words_that_are_put(rt: HostRuntime) {
    let mut words = [7; 255];
    assert_eq!(rt;
        understand(b"put 20000009 f 00abCDEF", &mut words),
        Ok(Some(Command::Put { len: 3 }))
    );
    assert_eq!(rt;
        [words[0], words[1], words[2], words[3]],
        [0x2000_0009, 15, 0x00AB_CDEF, 7]
    );
}
