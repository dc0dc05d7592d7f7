// Reports to a station.
ghost use Rattle.std.specs.Prelude.{◌≡◌, ◌<◌, Ok};
ghost use Rattle.words.specs.Refusals.{numbered, bare, value_or};
ghost use Rattle.mailboxes.specs.Mailboxes.{Kept};
ghost use Rattle.histories.specs.Calls.{reporting, changed};
ghost use Rattle.stations.specs.Stored.{station_of, stations_of, station_at};
ghost use Rattle.stations.specs.Tables.{Others};

use crate::station::Station;
use crate::table::find;
use crdt::kind::Crdt;
use entries::kind::{Clock, EntryKind};
use words::refusal::Refusal;

impl<C: Crdt> Station<C> {
    // Takes in the delta of a report, and counts it.
    // The sent mark is brought down to the own entry before that rises, as it stands for no more.
    pub(crate) fn accept(&mut self, report: C::Report) -> Result<(), Refusal>
        requires { self.old.number < 16 }
        ensures answer { numbered result ≡ bare (reporting C.Crdt self.old.number report (Ok (station_of C.Crdt self.old))) }
        ensures after { station_of C.Crdt self.new ≡ value_or (station_of C.Crdt self.old) (reporting C.Crdt self.old.number report (Ok (station_of C.Crdt self.old))) }
        ensures refused { Kept result self.old self.new }
    {
        let own = self.clock.count(self.number);
        if own >= Clock::TOP {
            return Err(Refusal::Spent);
        }
        let mut delta = C::bottom();
        self.record.delta(self.number, report, &mut delta)?;
        self.record.join(&delta);
        self.pending.join(&delta);
        self.sent = self.sent.min(own);
        self.clock.counts[self.number] = own + 1;
        Ok(())
    }
}

// Reports to station s: its record and its pending deltas take the delta in, and its own entry rises by 1.
pub fn report<C: Crdt>(
    stations: &mut [Station<C>],
    s: usize,
    report: C::Report,
) -> Result<(), Refusal>
    ensures answer { numbered result ≡ bare (reporting C.Crdt s report (station_at C.Crdt stations.old s)) }
    ensures stations { stations_of C.Crdt stations.new ≡ changed (stations_of C.Crdt stations.old) s (reporting C.Crdt s report (station_at C.Crdt stations.old s)) }
    ensures others { Others s stations.old stations.new }
    ensures refused { Kept result stations.old stations.new }
{
    find(stations, s)?;
    stations[s].accept(report)
}
