// The record of loans: how many were made, and which cards are out of the stock for good.
ghost use Rattle.std.specs.Prelude.{◌≡◌};
ghost use Rattle.either.specs.declared.Either.TheVariants.{Left, Right};
ghost use Rattle.cards.specs.Cards.{loan_of, loans_total, is_marked, marked_count};

use counters::g_counter::{Amount, GCounter};
use crdt::pair::Pair;
use either::{Either, Left, Right};
use registers::gset::{GSet, Member};

pub type LoanRecord = Pair<GCounter, GSet>;

// A report on a loan record.
pub type LoanReport = Either<Amount, Member>;

// Loans were made.
pub fn lent(amount: Amount) -> LoanReport
    ensures { result ≡ Left amount }
{
    Left(amount)
}

// A card was marked.
pub fn marked(card: Member) -> LoanReport
    ensures { result ≡ Right card }
{
    Right(card)
}

// How many loans were made.
pub fn total_lent(loan: &LoanRecord) -> u32
    ensures { result ≡ loans_total (loan_of loan.now) }
{
    loan.left.total()
}

// How many cards are marked.
pub fn marked_cards(loan: &LoanRecord) -> usize
    ensures { result ≡ marked_count (loan_of loan.now) }
{
    loan.right.len()
}

// Whether a card is marked. None above 255 is.
pub fn has_marked(loan: &LoanRecord, card: u32) -> bool
    ensures { result ≡ is_marked (loan_of loan.now) card }
{
    loan.right.contains(card)
}
