// Sending what a station has not sent yet.
ghost use Rattle.std.specs.Prelude.{◌≡◌, length};
ghost use Rattle.words.specs.Refusals.{numbered};
ghost use Rattle.mailboxes.specs.Mailboxes.{Kept};
ghost use Rattle.histories.specs.Calls.{changed_too, appended};
ghost use Rattle.stations.specs.Stored.{stations_of};
ghost use Rattle.stations.specs.Tables.{Others};
ghost use Rattle.sends.specs.Sends.{delta_sent, sent_length, sent_words};

use crate::admit::admit;
use crdt::kind::Crdt;
use mailboxes::mailbox::Mailbox;
use messages::pack::pack_delta;
use stations::station::Station;
use stations::table::find;
use words::refusal::Refusal;
use words::word::LONGEST;

// Puts a delta message of all that station s has not sent into the mailbox, and leaves it at the front of the given words.
// Answers its length. The station then has nothing pending.
pub fn send_delta<C: Crdt, M: Mailbox>(
    stations: &mut [Station<C>],
    mailbox: &mut M,
    s: usize,
    words: &mut [u32],
) -> Result<usize, Refusal>
    ensures answer { numbered result ≡ sent_length (delta_sent C.Crdt M.Mailbox stations.old mailbox.old s (length words.old)) }
    ensures stations { stations_of C.Crdt stations.new ≡ changed_too (stations_of C.Crdt stations.old) s (delta_sent C.Crdt M.Mailbox stations.old mailbox.old s (length words.old)) }
    ensures others { Others s stations.old stations.new }
    ensures mailbox { M.Mailbox.waiting mailbox.new ≡ appended (M.Mailbox.waiting mailbox.old) (delta_sent C.Crdt M.Mailbox stations.old mailbox.old s (length words.old)) }
    ensures refused { Kept result stations.old stations.new × Kept result mailbox.old mailbox.new }
    ensures words { words.new ≡ sent_words words.old (delta_sent C.Crdt M.Mailbox stations.old mailbox.old s (length words.old)) }
{
    find(stations, s)?;
    if words.len() < LONGEST {
        return Err(Refusal::Room);
    }
    let station = &mut stations[s];
    let span = station.unsent().ok_or(Refusal::Nothing)?;
    let size = 3 + station.pending.size();
    admit(mailbox, size)?;
    let n = pack_delta(s, span, &station.pending, words)?;
    mailbox.put(&words[0..n])?;
    station.settle();
    Ok(n)
}
