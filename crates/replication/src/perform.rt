// One call of a list.
ghost use Rattle.std.specs.Prelude.{◌≡◌, length, OnErr};
ghost use Rattle.histories.specs.Calls.{Step};
ghost use Rattle.stations.specs.Stored.{cluster_of};
ghost use Rattle.replication.specs.Runs.{asked, told, words_after, GoesOn};

use crate::answer::{Answer, Reply};
use crate::call::Call;
use crate::mail;
use crdt::kind::Crdt;
use fetches::fetch::fetch;
use mailboxes::mailbox::Mailbox;
use sends::send_delta::send_delta;
use sends::send_full::send_full;
use stations::report::report;
use stations::station::Station;

// Makes a call, and gives its answer. A refused call leaves every station and the mailbox as they are stored. The last clause is the whole
// promise of histories, for a cluster that a history from a fresh start has led to, and this call.
// The stations and the mailbox stay two parameters: a struct of two `&mut` would have to say in each contract that both borrows stay.
pub fn perform<C: Crdt, M: Mailbox>(
    stations: &mut [Station<C>],
    mailbox: &mut M,
    call: &Call<C::Report>,
    words: &mut [u32],
) -> Answer
    ensures step { Step C.Crdt (cluster_of C.Crdt M.Mailbox stations.old mailbox.old) (asked (length words.old) call.now) (told result) (cluster_of C.Crdt M.Mailbox stations.new mailbox.new) }
    ensures words { words.new ≡ words_after C.Crdt (cluster_of C.Crdt M.Mailbox stations.old mailbox.old) (asked (length words.old) call.now) words.old }
    ensures refused { OnErr result ((stations.new ≡ stations.old) × (mailbox.new ≡ mailbox.old)) }
    ensures promised { GoesOn C.Crdt (cluster_of C.Crdt M.Mailbox stations.old mailbox.old) (asked (length words.old) call.now) (told result) (cluster_of C.Crdt M.Mailbox stations.new mailbox.new) }
{
    match call {
        Call::Report { station, report: x } => {
            report(stations, *station, *x)?;
            Ok(Reply::Done)
        }
        Call::SendDelta { station } => {
            let sent = send_delta(stations, mailbox, *station, words)?;
            Ok(Reply::Number(sent))
        }
        Call::SendFull { station } => {
            let sent = send_full(stations, mailbox, *station, words)?;
            Ok(Reply::Number(sent))
        }
        Call::Fetch { station, message } => {
            let fetched = fetch(stations, mailbox, *station, *message, words)?;
            Ok(Reply::Number(fetched))
        }
        Call::Discard { message } => {
            mail::discard(stations, mailbox, *message)?;
            Ok(Reply::Done)
        }
        Call::Count => Ok(Reply::Number(usize::from(mail::count(stations, mailbox)))),
        Call::Fits { len } => Ok(Reply::Fits(mail::fits(stations, mailbox, *len))),
        Call::Read { message } => {
            let read = mail::read(stations, mailbox, *message, words)?;
            Ok(Reply::Number(read))
        }
    }
}
