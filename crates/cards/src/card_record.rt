// The record of a card family: blocks erased, spare blocks taken and returned, block groups retired, firmware seen.
ghost use Rattle.std.specs.Prelude.{◌≡◌};
ghost use Rattle.either.specs.declared.Either.TheVariants.{Left, Right};
ghost use Rattle.cards.specs.Cards.{card_of, erased_total, net_of, retired_count, is_retired, firmware_of};

use counters::g_counter::{Amount, GCounter};
use crdt::pair::Pair;
use either::{Either, Left, Right};
use registers::gset::{GSet, Member};
use registers::max_register::{MaxRegister, Revision};

// Erased, then taken and returned; then retired groups and firmware.
pub type CardRecord = Pair<Pair<GCounter, Pair<GCounter, GCounter>>, Pair<GSet, MaxRegister>>;

// A report on a card record.
pub type CardReport = Either<Either<Amount, Either<Amount, Amount>>, Either<Member, Revision>>;

// A function for each report: which counter it goes to is all that it says.

// Blocks were erased.
pub fn erased(amount: Amount) -> CardReport
    ensures { result ≡ Left (Left amount) }
{
    Left(Left(amount))
}

// Spare blocks were taken.
pub fn taken(amount: Amount) -> CardReport
    ensures { result ≡ Left (Right (Left amount)) }
{
    Left(Right(Left(amount)))
}

// Spare blocks were returned.
pub fn returned(amount: Amount) -> CardReport
    ensures { result ≡ Left (Right (Right amount)) }
{
    Left(Right(Right(amount)))
}

// A block group was retired.
pub fn retired(group: Member) -> CardReport
    ensures { result ≡ Right (Left group) }
{
    Right(Left(group))
}

// A firmware revision was seen.
pub fn firmware(revision: Revision) -> CardReport
    ensures { result ≡ Right (Right revision) }
{
    Right(Right(revision))
}

// How many blocks were erased.
pub fn total_erased(card: &CardRecord) -> u32
    ensures { result ≡ erased_total (card_of card.now) }
{
    card.left.left.total()
}

// Spare blocks taken less those returned.
pub fn net_spares(card: &CardRecord) -> i64
    ensures { result ≡ net_of (card_of card.now) }
{
    i64::from(card.left.right.left.total()) - i64::from(card.left.right.right.total())
}

// How many block groups are retired.
pub fn retired_groups(card: &CardRecord) -> usize
    ensures { result ≡ retired_count (card_of card.now) }
{
    card.right.left.len()
}

// Whether a block group is retired. None above 255 is.
pub fn has_retired(card: &CardRecord, group: u32) -> bool
    ensures { result ≡ is_retired (card_of card.now) group }
{
    card.right.left.contains(group)
}

// The highest firmware revision seen.
pub fn highest_firmware(card: &CardRecord) -> u32
    ensures { result ≡ firmware_of (card_of card.now) }
{
    card.right.right.value()
}
