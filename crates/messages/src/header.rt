// What a message says beside its clock and its record.
use wire::span::Span;

#[derive(Clone, Copy, PartialEq, Eq, Debug)]
pub enum Header {
    Full { sender: usize },
    Delta { sender: usize, span: Span },
}
