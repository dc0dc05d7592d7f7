// What the program writes, against text that was worked out by hand.
use crate::failure::Failure;
use crate::inspect::inspect;
use crate::rehearse::rehearse;
use crate::task;
use cards::card_record::CardRecord;
use std::test::Fail;

const TASK: &str = "\
card family LX-4, rated for 60 erased blocks, at three stations
by noon, after 19 calls:
  station 0: clock {0:3, 1:3}, erased {0:8, 1:42}, net 3, retired groups 0, firmware 0
  station 0: total erased 50 of 60: goes back
the whole day:
  station 0 reports erased 5: done
  station 0 reports erased 2: done
  station 0 sends a delta: 9
  message 0 is discarded: done
  station 0 reports erased 1: done
  station 0 sends a delta: 9
  station 1 reports erased 30: done
  station 1 reports taken 3: done
  station 1 sends all: 10
  station 1 reports erased 12: done
  station 1 sends all: 10
  station 2 fetches message 0: refused, 14 (gap before it) at 1, layer station
  station 0 sends all: 9
  station 2 fetches message 3: 9
  station 2 fetches message 3: 9
  station 2 fetches message 0: 9
  station 0 fetches message 2: 10
  station 0 fetches message 1: 10
  station 2 fetches message 2: 10
  station 2 reports erased 19: done
  station 2 reports erased 0: refused, 2 (out of range)
  station 2 reports returned 5: done
  station 2 reports retired 17: done
  station 2 reports firmware 1041: done
  station 2 sends all: 16
  count: 5
  fits 127: yes
  station 0 fetches message 4: 16
  station 1 fetches message 4: 16
  station 1 fetches message 3: 9
who has fetched a late full message from all others has everything:
  station 0: clock {0:3, 1:3, 2:4}, erased {0:8, 1:42, 2:19}, net -2, retired groups 1, firmware 1041
  station 0: total erased 69 of 60: pulled
  station 1: clock {0:3, 1:3, 2:4}, erased {0:8, 1:42, 2:19}, net -2, retired groups 1, firmware 1041
  station 1: total erased 69 of 60: pulled
  station 2: clock {0:3, 1:3, 2:4}, erased {0:8, 1:42, 2:19}, net -2, retired groups 1, firmware 1041
  station 2: total erased 69 of 60: pulled
power is lost; the same bytes are mounted again:
  message 0: 20000009 30000002 40000003 60000008 90000001 90000000 90000000 90000000 80000000
  message 1: 1100000A 51000002 90000001 6100001E 90000001 61000003 90000001 90000000 90000000 80000000
  message 2: 1100000A 51000003 90000001 6100002A 90000001 61000003 90000001 90000000 90000000 80000000
  message 3: 10000009 50000003 90000001 60000008 90000001 90000000 90000000 90000000 80000000
  message 4: 12000010 50000003 51000003 52000004 90000003 60000008 6100002A 62000013 90000003 61000003 90000001 62000005 90000001 71000002 90000001 80000411
a damaged copy: station 1, message 5: 11 (wrong form) at 1, layer message
the image in the other byte order: 10 (wrong kind) at 0, layer mailbox
";

// Lines 4 to 8 are not understood, each for a reason of its own.
const SCRIPT: &str = "\
stations 2
mailbox words 40
report 0 erased 5
report 0 erased
report 0 lent 5
send both 0
mailbox image
put 2000000G
report 0 erased 2
send delta 0
show 0
";

// The message is the worked one of the format: two reports, 5 and 2 erased.
const ANSWERS: &str = "\
stations 2: ready
mailbox words 40: ready, 0 messages
report 0 erased 5: done
line 4: not understood, expected a number, 0 to 4294967295
line 5: not understood, expected erased, taken, returned, retired or firmware
line 6: not understood, expected delta or full
line 7: not understood, expected words or pages, since no image was given
line 8: not understood, expected words of 1 to 8 hexadecimal digits, at most 255
report 0 erased 2: done
send delta 0: 9 words: 20000009 30000000 40000002 60000007 90000001 90000000 90000000 90000000 80000000
show 0: clock {0:2}, erased {0:7} total 7, taken {} total 0, returned {} total 0, net 0, retired {} count 0, firmware 0, sent 2
";

#[test]
fn the_task_is_told_as_written(rt: HostRuntime) -> Result<(), Fail> {
    let mut out = Vec::new(rt.alloc());
    task::run(&mut out)?;
    assert!(rt; out.as_slice() == TASK.as_bytes());
    Ok(())
}

#[test]
fn lines_that_are_not_understood_change_nothing(rt: HostRuntime) {
    let mut out = Vec::new(rt.alloc());
    let ended = rehearse(&rt, &mut out, SCRIPT.as_bytes(), None);
    assert!(rt; out.as_slice() == ANSWERS.as_bytes());
    assert!(rt; matches!(ended, Err(Failure::NotUnderstood(5))));
}

#[test]
fn an_image_of_the_other_byte_order_is_named(rt: HostRuntime) {
    let mut out = Vec::new(rt.alloc());
    let mut bytes = [0; 512];
    bytes[0] = 0xF0;
    bytes[3] = 9;
    let ended = inspect::<CardRecord, Vec<u8>>(&mut out, "card", &mut bytes);
    let told =
        "card: refused, 10 (wrong kind) at 0, layer mailbox\nbyte 3: the head is of another kind\nthe page head is right in the other byte order: likely a station of that order wrote the image\n";
    assert!(rt; out.as_slice() == told.as_bytes());
    assert!(rt; matches!(ended, Err(Failure::Image)));
}

// A station that has made 65,535 reports makes no more: the one refusal that a script reaches only by its length.
#[test]
fn the_report_after_the_last_is_refused(rt: HostRuntime) -> Result<(), Fail> {
    let mut script = Vec::new(rt.alloc());
    for _ in 0..65_536 {
        script.extend_from_slice(b"report 0 erased 1\n")?;
    }
    let mut out = Vec::new(rt.alloc());
    let ended = rehearse(&rt, &mut out, &script, None);
    let last = "report 0 erased 1: refused, 4 (all reports made)\n";
    assert!(rt; out.len() == 65_535 * 24 + last.len());
    assert!(rt; &out[65_535 * 24..] == last.as_bytes());
    assert!(rt; ended.is_ok());
    Ok(())
}
