// What one station makes of a message.
ghost use Rattle.std.specs.Prelude.{◌≡◌};
ghost use Rattle.words.specs.Readings.{told};
ghost use Rattle.words.specs.Refusals.{bare, value_or};
ghost use Rattle.counters.specs.Counts.{clock_of};
ghost use Rattle.mailboxes.specs.Mailboxes.{Kept};
ghost use Rattle.wire.specs.Openings.{unpacked};
ghost use Rattle.messages.specs.Headers.{message_of};
ghost use Rattle.histories.specs.Clusters.{raised};
ghost use Rattle.histories.specs.Calls.{hearing, hearing_opened};
ghost use Rattle.stations.specs.Stored.{station_of};

use counters::vector_clock::VectorClock;
use crdt::kind::Crdt;
use messages::header::Header;
use messages::unpack::unpack;
use stations::station::Station;
use wire::span::Span;
use words::fault::{Fault, Layer};
use words::refusal::Refusal;
use words::word::STATIONS;

// Raises the count of a station to the end of a span where it is lower.
fn raise(clock: &mut VectorClock, station: usize, span: Span)
    ensures { clock_of clock.new.counts ≡ raised (clock_of clock.old.counts) station span.to }
{
    if station < STATIONS && clock.count(station) < span.to {
        clock.counts[station] = span.to;
    }
}

// Takes in a message: its header, its clock if it is full, and its record.
fn hear<C: Crdt>(
    station: &mut Station<C>,
    header: Header,
    clock: &VectorClock,
    record: &C,
) -> Result<(), Fault>
    ensures answer { told result ≡ bare (hearing C.Crdt station.old.number (station_of C.Crdt station.old) (message_of header (clock_of clock.now.counts) (C.Crdt.value «record».now))) }
    ensures after { station_of C.Crdt station.new ≡ value_or (station_of C.Crdt station.old) (hearing C.Crdt station.old.number (station_of C.Crdt station.old) (message_of header (clock_of clock.now.counts) (C.Crdt.value «record».now))) }
    ensures refused { Kept result station.old station.new }
{
    let own = station.clock.count(station.number);
    match header {
        Header::Full { sender: _ } => {
            if clock.count(station.number) > own {
                return Err(Fault::plain(Refusal::Ahead, Layer::Station));
            }
            station.clock.join(clock);
            station.record.join(record);
            Ok(())
        }
        Header::Delta { sender, span } => {
            if sender == station.number && span.to > own {
                return Err(Fault::plain(Refusal::Ahead, Layer::Station));
            }
            if span.from > station.clock.count(sender) {
                return Err(Fault {
                    refusal: Refusal::Gap,
                    place: 1,
                    layer: Layer::Station,
                });
            }
            raise(&mut station.clock, sender, span);
            station.record.join(record);
            Ok(())
        }
    }
}

// Takes in the message that the given words are.
pub(crate) fn receive<C: Crdt>(station: &mut Station<C>, words: &[u32]) -> Result<(), Fault>
    ensures answer { told result ≡ bare (hearing_opened C.Crdt station.old.number (station_of C.Crdt station.old) (unpacked C.Crdt words.now)) }
    ensures after { station_of C.Crdt station.new ≡ value_or (station_of C.Crdt station.old) (hearing_opened C.Crdt station.old.number (station_of C.Crdt station.old) (unpacked C.Crdt words.now)) }
    ensures refused { Kept result station.old station.new }
{
    let mut clock = VectorClock::bottom();
    let mut record = C::bottom();
    let header = unpack(words, &mut clock, &mut record)?;
    hear(station, header, &clock, &record)
}
