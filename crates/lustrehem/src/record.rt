// The record kinds that a script and an inspection can choose.
use crate::show::{CounterOf, MembersOf};
use cards::card_record::{CardRecord, CardReport};
use cards::loan_record::{LoanRecord, LoanReport};
use cards::{card_record, loan_record};
use counters::g_counter::Amount;
use crdt::kind::Crdt;
use registers::gset::Member;
use registers::max_register::Revision;
use scripts::what::What;
use std::fmt;

pub(crate) trait Recorded: Crdt {
    // What a line of a script reports, where this kind has it.
    fn reported(what: What, value: u32) -> Option<Self::Report>;

    // What a line may report.
    const REPORTABLE: &'static str;

    // Its counts, members and totals.
    fn show<W: fmt::Write>(&self, f: &mut fmt::Formatter<W>) -> fmt::Result;
}

impl Recorded for CardRecord {
    fn reported(what: What, value: u32) -> Option<CardReport> {
        match what {
            What::Erased => Some(card_record::erased(Amount(value))),
            What::Taken => Some(card_record::taken(Amount(value))),
            What::Returned => Some(card_record::returned(Amount(value))),
            What::Retired => Some(card_record::retired(Member(value))),
            What::Firmware => Some(card_record::firmware(Revision(value))),
            What::Lent | What::Marked => None,
        }
    }

    const REPORTABLE: &'static str = "erased, taken, returned, retired or firmware";

    fn show<W: fmt::Write>(&self, f: &mut fmt::Formatter<W>) -> fmt::Result {
        let erased = CounterOf(&self.left.left);
        let taken = CounterOf(&self.left.right.left);
        let returned = CounterOf(&self.left.right.right);
        let net = card_record::net_spares(self);
        let retired = MembersOf(&self.right.left);
        let firmware = card_record::highest_firmware(self);
        write!(
            f,
            "erased {erased}, taken {taken}, returned {returned}, net {net}"
        )?;
        write!(f, ", retired {retired}, firmware {firmware}")
    }
}

impl Recorded for LoanRecord {
    fn reported(what: What, value: u32) -> Option<LoanReport> {
        match what {
            What::Lent => Some(loan_record::lent(Amount(value))),
            What::Marked => Some(loan_record::marked(Member(value))),
            _ => None,
        }
    }

    const REPORTABLE: &'static str = "lent or marked";

    fn show<W: fmt::Write>(&self, f: &mut fmt::Formatter<W>) -> fmt::Result {
        let lent = CounterOf(&self.left);
        let marked = MembersOf(&self.right);
        write!(f, "lent {lent}, marked {marked}")
    }
}

// A record, as it is printed.
#[derive(Clone, Copy)]
pub(crate) struct RecordOf<'a, C>(pub(crate) &'a C);

impl<C: Recorded> fmt::Display for RecordOf<'_, C> {
    fn fmt<W: fmt::Write>(&self, f: &mut fmt::Formatter<W>) -> fmt::Result {
        self.0.show(f)
    }
}
