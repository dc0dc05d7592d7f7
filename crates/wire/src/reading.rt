// Reading the span of a delta message.
ghost use Rattle.std.specs.Prelude.{◌≡◌};
ghost use Rattle.words.specs.Readings.{left, before, rest};
ghost use Rattle.wire.specs.Openings.{span_reading};
ghost use Rattle.wire.specs.Answers.{reading_answer};
ghost use Rattle.wire.specs.Spans.{span_told};

use crate::span::Span;
use words::fault::Fault;
use words::reader::Reader;
use words::refusal::Refusal;
use words::word::WordKind;

// Reads a span, and stops at the word that is wrong.
pub fn read_span(reader: &mut Reader) -> Result<Span, Fault>
    ensures answer { span_told result ≡ reading_answer reader.old (span_reading (left reader.old)) }
    ensures reader { reader.new ≡ before reader.old (rest (span_reading (left reader.old))) }
{
    let from = reader.expect(WordKind::From)?;
    reader.step();
    let to = reader.expect(WordKind::To)?;
    let span = Span::new(from.0 % 0x1_0000, to.0 % 0x1_0000).ok_or(reader.fault(Refusal::Form))?;
    reader.step();
    Ok(span)
}
