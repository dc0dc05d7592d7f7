// The calls of the day.
use cards::card_record::{CardReport, erased, firmware, retired, returned, taken};
use counters::g_counter::Amount;
use registers::gset::Member;
use registers::max_register::Revision;
use replication::call::Call;

pub(crate) const CALLS: usize = 30;

fn report(station: usize, report: CardReport) -> Call<CardReport> {
    Call::Report { station, report }
}

fn fetch(station: usize, message: usize) -> Call<CardReport> {
    Call::Fetch { station, message }
}

// Message 0 is lost: it is discarded before anyone has fetched it. The next delta of station 0 then meets a gap, which its full
// message heals; that one is fetched twice. The first full message of station 1 is overtaken by its second.
pub(crate) fn calls() -> [Call<CardReport>; CALLS] {
    [
        report(0, erased(Amount(5))),
        report(0, erased(Amount(2))),
        Call::SendDelta { station: 0 },
        Call::Discard { message: 0 },
        report(0, erased(Amount(1))),
        Call::SendDelta { station: 0 },
        report(1, erased(Amount(30))),
        report(1, taken(Amount(3))),
        Call::SendFull { station: 1 },
        report(1, erased(Amount(12))),
        Call::SendFull { station: 1 },
        fetch(2, 0),
        Call::SendFull { station: 0 },
        fetch(2, 3),
        fetch(2, 3),
        fetch(2, 0),
        fetch(0, 2),
        fetch(0, 1),
        fetch(2, 2),
        report(2, erased(Amount(19))),
        report(2, erased(Amount(0))),
        report(2, returned(Amount(5))),
        report(2, retired(Member(17))),
        report(2, firmware(Revision(1041))),
        Call::SendFull { station: 2 },
        Call::Count,
        Call::Fits { len: 127 },
        fetch(0, 4),
        fetch(1, 4),
        fetch(1, 3),
    ]
}
