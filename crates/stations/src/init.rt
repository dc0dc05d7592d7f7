// The beginning of a table of stations.
ghost use Rattle.std.specs.Prelude.{◌≡◌, length, OnOk};
ghost use Rattle.words.specs.Refusals.{numbered};
ghost use Rattle.mailboxes.specs.Mailboxes.{Kept};
ghost use Rattle.histories.specs.Clusters.{fresh};
ghost use Rattle.histories.specs.Promises.{PromisedFrom};
ghost use Rattle.stations.specs.Stored.{station_of, stations_of};
ghost use Rattle.stations.specs.Tables.{init_answer, all_fresh};

use crate::station::Station;
use counters::vector_clock::VectorClock;
use crdt::kind::Crdt;
use words::refusal::Refusal;
use words::word::STATIONS;

impl<C: Crdt> Station<C> {
    // The station of a number before its first call.
    pub fn new(number: usize) -> Station<C>
        ensures { station_of C.Crdt result ≡ fresh C.Crdt number }
    {
        Station {
            number,
            clock: VectorClock::bottom(),
            record: C::bottom(),
            pending: C::bottom(),
            sent: 0,
        }
    }
}

// Makes every station of a table of 1 to 16 fresh, numbered by its place. Every history of calls that begins there, with an empty mailbox,
// keeps what is promised of histories.
pub fn init<C: Crdt>(stations: &mut [Station<C>]) -> Result<(), Refusal>
    ensures answer { numbered result ≡ init_answer (length stations.old) }
    ensures fresh { OnOk result (stations_of C.Crdt stations.new ≡ all_fresh C.Crdt 0 (length stations.old)) }
    ensures promised { OnOk result (PromisedFrom C.Crdt (stations_of C.Crdt stations.new)) }
    ensures refused { Kept result stations.old stations.new }
{
    if stations.is_empty() || stations.len() > STATIONS {
        return Err(Refusal::Station);
    }
    for (i, station) in stations.iter_mut().enumerate() {
        *station = Station::new(i);
    }
    Ok(())
}
