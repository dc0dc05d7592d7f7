// Fetching a message.
ghost use Rattle.std.specs.Prelude.{◌≡◌, [], length, slice_index_or};
ghost use Rattle.mailboxes.specs.Mailboxes.{Kept};
ghost use Rattle.histories.specs.Calls.{fetched_if, changed};
ghost use Rattle.stations.specs.Stored.{stations_of, station_at};
ghost use Rattle.stations.specs.Tables.{Others};
ghost use Rattle.fetches.specs.Fetches.{fetched, fetch_told, fetch_leaves};

use crate::fault::FetchFault;
use crate::hear::receive;
use crdt::kind::Crdt;
use mailboxes::mailbox::Mailbox;
use stations::station::Station;
use stations::table::find;
use words::fault::{Fault, Layer};

// Station s takes in message k, which stays where it waits. It answers the message's length, and leaves the message at the
// front of the given words.
pub fn fetch<C: Crdt, M: Mailbox>(
    stations: &mut [Station<C>],
    mailbox: &M,
    s: usize,
    k: usize,
    words: &mut [u32],
) -> Result<usize, FetchFault>
    ensures answer { fetch_told result ≡ fetched_if s k (length (slice_index_or (M.Mailbox.waiting mailbox.now) k [])) (fetched C.Crdt M.Mailbox stations.old mailbox.now s k (length words.old)) }
    ensures stations { stations_of C.Crdt stations.new ≡ changed (stations_of C.Crdt stations.old) s (fetched C.Crdt M.Mailbox stations.old mailbox.now s k (length words.old)) }
    ensures others { Others s stations.old stations.new }
    ensures refused { Kept result stations.old stations.new }
    ensures words { words.new ≡ fetch_leaves (station_at C.Crdt stations.old s) (M.Mailbox.waiting mailbox.now) k words.old }
{
    // Each fault is put together where it is made: a function for it would be given the same three.
    find(stations, s).map_err(|refusal| FetchFault {
        station: s,
        message: k,
        fault: Fault::plain(refusal, Layer::Station),
    })?;
    let n = mailbox.read(k, words).map_err(|refusal| FetchFault {
        station: s,
        message: k,
        fault: Fault::plain(refusal, Layer::Mailbox),
    })?;
    receive(&mut stations[s], &words[0..n]).map_err(|fault| FetchFault {
        station: s,
        message: k,
        fault,
    })?;
    Ok(n)
}
