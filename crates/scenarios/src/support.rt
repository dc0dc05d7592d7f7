// What the tests share: loading from words, and the fault that is expected.
use crdt::kind::Crdt;
use words::fault::{Fault, Layer};
use words::reader::Reader;
use words::refusal::Refusal;

// What a load of words from a place answers, and the record that it leaves.
pub(crate) fn load<C: Crdt>(into: &mut C, words: &[u32], place: usize) -> Result<usize, Fault> {
    let mut reader = Reader {
        words,
        place,
        layer: Layer::Record,
    };
    into.load(&mut reader)
}

// A fault in a record.
pub(crate) fn wrong(refusal: Refusal, place: usize) -> Result<usize, Fault> {
    Err(Fault {
        refusal,
        place,
        layer: Layer::Record,
    })
}

// What a report answers, joined in where it is accepted.
pub(crate) fn report<C: Crdt>(
    record: &mut C,
    station: usize,
    report: C::Report,
) -> Result<(), Refusal> {
    let mut delta = C::bottom();
    let answer = record.delta(station, report, &mut delta);
    record.join(&delta);
    answer
}
