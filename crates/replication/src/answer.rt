// What a call on a cluster answers.
ghost use Rattle.std.specs.Prelude.{◌≡◌};
ghost use Rattle.replication.specs.declared.answer.CallError.TheVariants as error;

use fetches::fault::FetchFault;
use words::refusal::Refusal;

#[derive(Clone, Copy, PartialEq, Eq, Debug)]
pub enum Reply {
    // A report or a discard.
    Done,
    // The length of a message that was sent, fetched or read, or the count of those that wait.
    Number(usize),
    // Whether a message would be taken.
    Fits(bool),
}

// Why a call is refused. A fetch says more than the others.
#[derive(Clone, Copy, PartialEq, Eq, Debug)]
pub enum CallError {
    Refused(Refusal),
    Faulted(FetchFault),
}

pub type Answer = Result<Reply, CallError>;

impl From<Refusal> for CallError {
    ghost from_gives = { λ r e. e ≡ error.Refused r };

    fn from(refusal: Refusal) -> CallError {
        CallError::Refused(refusal)
    }
}

impl From<FetchFault> for CallError {
    ghost from_gives = { λ f e. e ≡ error.Faulted f };

    fn from(fault: FetchFault) -> CallError {
        CallError::Faulted(fault)
    }
}
