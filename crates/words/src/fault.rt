// A refusal with the place of the wrong word and the layer that found it.
ghost use Rattle.std.specs.Prelude.{◌≡◌, Some};
ghost use Rattle.words.specs.Readings.{told_fault, plain_fault};
ghost use Rattle.words.specs.Refusals.{number_of};
ghost use Rattle.words.specs.Shown.{layer_shown, fault_shown};

use crate::refusal::Refusal;
use std::error::Error;
use std::fmt;

// Who found a fault.
#[derive(Clone, Copy, PartialEq, Eq, Debug)]
pub enum Layer {
    Record,
    Message,
    Mailbox,
    Station,
}

// The place is that of the wrong word, or 0 where there is none: a number, since that is how every fault is told.
#[derive(Clone, Copy, PartialEq, Eq, Debug)]
pub struct Fault {
    pub refusal: Refusal,
    pub place: usize,
    pub layer: Layer,
}

impl Fault {
    // A refusal of no word.
    pub fn plain(refusal: Refusal, layer: Layer) -> Fault
        ensures { told_fault result ≡ plain_fault layer (number_of refusal) }
    {
        Fault {
            refusal,
            place: 0,
            layer,
        }
    }
}

impl fmt::Display for Layer {
    ghost output = { λ x. Some (layer_shown x) };

    fn fmt<W: fmt::Write>(&self, f: &mut fmt::Formatter<W>) -> fmt::Result {
        f.write_str(match self {
            Layer::Record => "record",
            Layer::Message => "message",
            Layer::Mailbox => "mailbox",
            Layer::Station => "station",
        })
    }
}

impl fmt::Display for Fault {
    ghost output = { λ x. Some (fault_shown x) };

    fn fmt<W: fmt::Write>(&self, f: &mut fmt::Formatter<W>) -> fmt::Result {
        let Fault {
            refusal,
            place,
            layer,
        } = self;
        write!(f, "{refusal} at {place}, layer {layer}")
    }
}

impl Error for Fault {}
