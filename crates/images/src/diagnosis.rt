// What is wrong with a page that its check refuses.
ghost use Rattle.std.specs.Prelude.{Some};
ghost use Rattle.images.specs.Shown.{cause_shown};

use std::fmt;
use words::fault::Fault;

// Why a page is refused: for a zero head the last, else the first that holds.
#[derive(Clone, Copy, PartialEq, Eq, Debug)]
pub enum Cause {
    // The head is of another kind.
    Kind,
    // The head has a bit that must be zero.
    ZeroBits,
    // The length is not 1 to 127.
    Length,
    // The page is not empty, but comes after an empty one.
    AfterEmpty,
    // A byte after the words is not zero.
    AfterWords,
    // The head is zero, but another byte is not.
    EmptyPage,
}

#[derive(Clone, Copy, PartialEq, Eq, Debug)]
pub struct Diagnosis {
    // What the check answers. Its place is the page's first byte.
    pub fault: Fault,
    // The byte in the image that is wrong.
    pub byte: usize,
    pub cause: Cause,
    // Whether the page head is right when its bytes are read in the other order.
    pub foreign: bool,
}

impl fmt::Display for Cause {
    ghost output = { λ x. Some (cause_shown x) };

    fn fmt<W: fmt::Write>(&self, f: &mut fmt::Formatter<W>) -> fmt::Result {
        f.write_str(match self {
            Cause::Kind => "the head is of another kind",
            Cause::ZeroBits => "the head has a bit that must be zero",
            Cause::Length => "the length is not 1 to 127",
            Cause::AfterEmpty => "the page is not empty, but comes after an empty one",
            Cause::AfterWords => "a byte after the words is not zero",
            Cause::EmptyPage => "the head is zero, but this byte is not",
        })
    }
}
