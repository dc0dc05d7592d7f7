// Reading a whole message.
ghost use Rattle.std.specs.Prelude.{◌≡◌, IfOk};
ghost use Rattle.counters.specs.Counts.{clock_of};
ghost use Rattle.wire.specs.Messages.{packed};
ghost use Rattle.wire.specs.Openings.{unpacked, OneToOne};
ghost use Rattle.wire.specs.Answers.{unpack_answer, clock_unpacked, record_unpacked};
ghost use Rattle.messages.specs.Headers.{header_told, message_of};

use crate::header::Header;
use crate::read::read_header;
use counters::vector_clock::VectorClock;
use crdt::kind::Crdt;
use words::fault::{Fault, Layer};
use words::reader::Reader;
use words::refusal::Refusal;

// Reads the message that the given words are into a clock and a record.
// Both are bottom where it is refused, and the clock where the message is a delta.
// The last clause is the theorem that messages and their words are one to one, for every kind of record.
pub fn unpack<C: Crdt>(
    words: &[u32],
    clock: &mut VectorClock,
    record: &mut C,
) -> Result<Header, Fault>
    ensures answer { header_told result ≡ unpack_answer (unpacked C.Crdt words.now) }
    ensures clock { clock_of clock.new.counts ≡ clock_unpacked (unpacked C.Crdt words.now) }
    ensures value { C.Crdt.value «record».new ≡ record_unpacked C.Crdt.least (unpacked C.Crdt words.now) }
    ensures exact { IfOk result (λ h. words.now ≡ packed C.Crdt (message_of h (clock_of clock.new.counts) (C.Crdt.value «record».new))) }
    ensures law { OneToOne C.Crdt }
{
    // Not by `inspect_err`: it does not say that what its closure captures stays where nothing is refused.
    let answer = read_all(words, clock, record);
    if answer.is_err() {
        *clock = VectorClock::bottom();
        *record = C::bottom();
    }
    answer
}

// Reads the header, and then the record to the end of the words.
fn read_all<C: Crdt>(
    words: &[u32],
    clock: &mut VectorClock,
    record: &mut C,
) -> Result<Header, Fault>
    ensures answer { header_told result ≡ unpack_answer (unpacked C.Crdt words.now) }
    ensures clock { IfOk result (λ h. clock_of clock.new.counts ≡ clock_unpacked (unpacked C.Crdt words.now)) }
    ensures value { IfOk result (λ h. C.Crdt.value «record».new ≡ record_unpacked C.Crdt.least (unpacked C.Crdt words.now)) }
{
    let mut reader = Reader {
        words,
        place: 0,
        layer: Layer::Message,
    };
    let header = read_header(&mut reader, clock)?;
    reader.layer = Layer::Record;
    let end = record.load(&mut reader)?;
    if end != words.len() {
        return Err(Fault::plain(Refusal::Length, Layer::Message));
    }
    Ok(header)
}
