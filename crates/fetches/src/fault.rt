// The fault of a fetch: the station, the message and, whole, the fault below.
ghost use Rattle.std.specs.Prelude.{Some};
ghost use Rattle.fetches.specs.Shown.{fetch_fault_shown};

use std::error::Error;
use std::fmt;
use words::fault::Fault;

#[derive(Clone, Copy, PartialEq, Eq, Debug)]
pub struct FetchFault {
    pub station: usize,
    pub message: usize,
    pub fault: Fault,
}

impl fmt::Display for FetchFault {
    ghost output = { λ x. Some (fetch_fault_shown x) };

    fn fmt<W: fmt::Write>(&self, f: &mut fmt::Formatter<W>) -> fmt::Result {
        let FetchFault {
            station,
            message,
            fault,
        } = self;
        write!(f, "station {station}, message {message}: {fault}")
    }
}

impl Error for FetchFault {}
