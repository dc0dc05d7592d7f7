// A list of calls, made one after another.
ghost use Rattle.std.specs.Prelude.{◌≡◌, map, length, take, drop, OnOk};
ghost use Rattle.mailboxes.specs.Mailboxes.{Kept};
ghost use Rattle.stations.specs.Stored.{cluster_of};
ghost use Rattle.replication.specs.Runs.{asked, told, replay_answer, Replayed};

use crate::answer::Answer;
use crate::call::Call;
use crate::perform::perform;
use crate::unready::Unready;
use crdt::kind::Crdt;
use mailboxes::mailbox::Mailbox;
use stations::init::init;
use stations::station::Station;

// Makes the table fresh and then every call of the list, in order, going on after a refusal, and writes down the answer of each.
pub fn replay<C: Crdt, M: Mailbox>(
    stations: &mut [Station<C>],
    mailbox: &mut M,
    calls: &[Call<C::Report>],
    answers: &mut [Answer],
    words: &mut [u32],
) -> Result<(), Unready>
    ensures answer { result ≡ replay_answer (length calls.now) (length answers.old) (length (M.Mailbox.waiting mailbox.old)) (length stations.old) }
    ensures run { OnOk result (Replayed C.Crdt (length stations.old) (M.Mailbox.takes mailbox.old) (map (asked (length words.old)) calls.now) (map told (take (length calls.now) answers.new)) words.old words.new (cluster_of C.Crdt M.Mailbox stations.new mailbox.new)) }
    ensures answers { drop (length calls.now) answers.new ≡ drop (length calls.now) answers.old }
    ensures refused { Kept result stations.old stations.new × Kept result mailbox.old mailbox.new × Kept result answers.old answers.new × Kept result words.old words.new }
{
    if answers.len() < calls.len() {
        return Err(Unready::Answers);
    }
    if mailbox.count() != 0 {
        return Err(Unready::Mailbox);
    }
    init(stations).map_err(|_| Unready::Table)?;
    // By index: of what a loop over `answers.iter_mut().zip(calls)` has written no proof knows anything.
    for (i, call) in calls.iter().enumerate() {
        answers[i] = perform(stations, mailbox, call, words);
    }
    Ok(())
}
