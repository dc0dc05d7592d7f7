// Opening a message in place.
ghost use Rattle.std.specs.Prelude.{◌≡◌, IfOk};
ghost use Rattle.wire.specs.Openings.{opening};
ghost use Rattle.wire.specs.Answers.{open_answer, joined_words};
ghost use Rattle.messages.specs.Headers.{open_told, parts, Sound};

use crate::header::Header;
use crate::opened::Opened;
use crate::read::read_header;
use counters::vector_clock::VectorClock;
use crdt::kind::Crdt;
use words::fault::{Fault, Layer};
use words::reader::Reader;

// The parts of the message that the given words are.
pub fn open(words: &[u32]) -> Result<Opened<'_>, Fault>
    ensures answer { open_told result ≡ open_answer words.now (opening words.now) }
    ensures whole { IfOk result (λ o. words.now ≡ joined_words (parts o)) }
    ensures sound { IfOk result Sound }
{
    let mut reader = Reader {
        words,
        place: 0,
        layer: Layer::Message,
    };
    let mut time = VectorClock::bottom();
    let header = read_header(&mut reader, &mut time)?;
    let end = reader.place;
    match header {
        Header::Full { sender } => Ok(Opened::Full {
            sender,
            clock: &words[1..end],
            record: &words[end..],
        }),
        Header::Delta { sender, span } => Ok(Opened::Delta {
            sender,
            span,
            record: &words[end..],
        }),
    }
}
