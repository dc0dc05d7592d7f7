// Sending all that a station holds.
ghost use Rattle.std.specs.Prelude.{◌≡◌, length};
ghost use Rattle.words.specs.Refusals.{numbered};
ghost use Rattle.mailboxes.specs.Mailboxes.{Kept};
ghost use Rattle.histories.specs.Calls.{appended};
ghost use Rattle.sends.specs.Sends.{full_sent, sent_length, sent_words};

use crate::admit::admit;
use crdt::kind::Crdt;
use mailboxes::mailbox::Mailbox;
use messages::pack::pack_full;
use stations::station::Station;
use stations::table::find;
use words::refusal::Refusal;
use words::word::LONGEST;

// Puts a full message of station s into the mailbox, and leaves it at the front of the given words. Answers its length.
// The shared steps stand here and in send_delta: a helper would take the packing as a closure over the words, and say of it all that pack_full says.
pub fn send_full<C: Crdt, M: Mailbox>(
    stations: &[Station<C>],
    mailbox: &mut M,
    s: usize,
    words: &mut [u32],
) -> Result<usize, Refusal>
    ensures answer { numbered result ≡ sent_length (full_sent C.Crdt M.Mailbox stations.now mailbox.old s (length words.old)) }
    ensures mailbox { M.Mailbox.waiting mailbox.new ≡ appended (M.Mailbox.waiting mailbox.old) (full_sent C.Crdt M.Mailbox stations.now mailbox.old s (length words.old)) }
    ensures refused { Kept result mailbox.old mailbox.new }
    ensures words { words.new ≡ sent_words words.old (full_sent C.Crdt M.Mailbox stations.now mailbox.old s (length words.old)) }
{
    find(stations, s)?;
    if words.len() < LONGEST {
        return Err(Refusal::Room);
    }
    let station = &stations[s];
    let size = 1 + station.clock.size() + station.record.size();
    admit(mailbox, size)?;
    let n = pack_full(s, &station.clock, &station.record, words)?;
    mailbox.put(&words[0..n])?;
    Ok(n)
}
