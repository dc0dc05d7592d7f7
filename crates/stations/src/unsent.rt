// What a station has not sent yet.
ghost use Rattle.std.specs.Prelude.{◌≡◌, is_some, IfSome, nat_lt};
ghost use Rattle.histories.specs.Clusters.{entry};
ghost use Rattle.histories.specs.Calls.{emptied};
ghost use Rattle.stations.specs.Stored.{station_of};

use crate::station::Station;
use crdt::kind::Crdt;
use wire::span::Span;

impl<C: Crdt> Station<C> {
    // The span of its reports that it has not sent, if there are any.
    pub fn unsent(&self) -> Option<Span>
        ensures some { is_some result ≡ nat_lt (station_of C.Crdt self.now).sent (entry (station_of C.Crdt self.now).clock self.now.number) }
        ensures value { IfSome result (λ p. (p.from ≡ (station_of C.Crdt self.now).sent) × (p.to ≡ entry (station_of C.Crdt self.now).clock self.now.number)) }
    {
        Span::new(self.sent, self.clock.count(self.number))
    }

    // Counts all its reports as sent: nothing is pending any more.
    pub fn settle(&mut self)
        ensures { station_of C.Crdt self.new ≡ emptied C.Crdt self.old.number (station_of C.Crdt self.old) }
    {
        self.sent = self.clock.count(self.number);
        self.pending = C::bottom();
    }
}
