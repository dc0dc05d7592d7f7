// Reading what stands before the record of a message.
ghost use Rattle.std.specs.Prelude.{◌≡◌};
ghost use Rattle.words.specs.Readings.{left, before, rest};
ghost use Rattle.counters.specs.Counts.{clock_of};
ghost use Rattle.wire.specs.Openings.{opening};
ghost use Rattle.wire.specs.Answers.{header_answer, clock_opened};
ghost use Rattle.messages.specs.Headers.{header_told};

use crate::header::Header;
use counters::vector_clock::VectorClock;
use crdt::kind::Crdt;
use wire::head;
use wire::reading::read_span;
use words::fault::Fault;
use words::reader::Reader;
use words::word::WordKind;

// Reads the head and what follows it: a span, or a clock. The clock is bottom where none is read.
pub(crate) fn read_header(reader: &mut Reader, clock: &mut VectorClock) -> Result<Header, Fault>
    ensures answer { header_told result ≡ header_answer reader.old (opening (left reader.old)) }
    ensures clock { clock_of clock.new.counts ≡ clock_opened (opening (left reader.old)) }
    ensures reader { reader.new ≡ before reader.old (rest (opening (left reader.old))) }
{
    *clock = VectorClock::bottom();
    let word = head::check(reader)?;
    reader.step();
    let sender = word.index() as usize;
    if word.is(WordKind::FullHead) {
        clock.load(reader)?;
        return Ok(Header::Full { sender });
    }
    let span = read_span(reader)?;
    Ok(Header::Delta { sender, span })
}
