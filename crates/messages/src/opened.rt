// An opened message. Its clock and its record are parts of the given words.
use wire::span::Span;

// The cases of a `Header`, each with its words. One type for both would borrow where nothing is lent.
#[derive(Drop)]
pub enum Opened<'a> {
    Full {
        sender: usize,
        clock: &'a [u32],
        record: &'a [u32],
    },
    Delta {
        sender: usize,
        span: Span,
        record: &'a [u32],
    },
}
