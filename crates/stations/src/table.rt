// A table of stations.
ghost use Rattle.std.specs.Prelude.{◌≡◌, OnOk};
ghost use Rattle.words.specs.Refusals.{numbered, bare};
ghost use Rattle.stations.specs.Stored.{station_at, Here};

use crate::station::Station;
use crdt::kind::Crdt;
use words::refusal::Refusal;
use words::word::STATIONS;

// Whether a table of at most 16 has a station s that bears its number.
// The answer holds no station: no contract can say what a table becomes by a write through a `&mut` in a Result.
pub fn find<C: Crdt>(stations: &[Station<C>], s: usize) -> Result<(), Refusal>
    ensures answer { numbered result ≡ bare (station_at C.Crdt stations.now s) }
    ensures here { OnOk result (Here stations.now s) }
{
    if stations.len() > STATIONS || s >= stations.len() {
        return Err(Refusal::Station);
    }
    if stations[s].number != s {
        return Err(Refusal::Station);
    }
    Ok(())
}
