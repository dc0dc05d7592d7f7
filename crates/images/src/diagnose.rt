// Which byte of a card image is wrong, and why.
ghost use Rattle.std.specs.Prelude.{◌≡◌, ◌+◌, ◌≤◌, length, IfSome, Err, MatchOption};
ghost use Rattle.std.specs.Option.{option_map};
ghost use Rattle.words.specs.Refusals.{number_of};
ghost use Rattle.words.specs.Readings.{told_fault};
ghost use Rattle.layouts.specs.Pages.{word_at};
ghost use Rattle.layouts.specs.Mounts.{mount_check};
ghost use Rattle.images.specs.Causes.{past_zeros, right_head, foreign_head, cause_of, wrong_byte};
ghost use Rattle.images.specs.Diagnoses.{after_empty, explained, diagnosis, told_diagnosis};
ghost use Rattle.images.specs.Laws.{Accepted, Within, Says, Foreign, TurnedFound};

use crate::diagnosis::{Cause, Diagnosis};
use mailboxes::mailbox::is_sized;
use page_mailbox::PageMailbox;
use page_mailbox::bytes::{PAGE, head_of, is_zero};
use words::fault::Fault;
use words::refusal::Refusal;
use words::word::{Word, WordKind};

// The place after the zero bytes that begin at a place.
fn past_zeros(bytes: &[u8], from: usize) -> usize
    ensures { result ≡ past_zeros from bytes.now }
{
    // A loop: of `skip`, `take_while` and `count` in a row, and of `get` and `position`, the search did not prove the count.
    let mut place = from;
    while place < bytes.len() && bytes[place] == 0 {
        place += 1;
    }
    place
}

// Whether it is the page head of a message.
fn is_right_head(head: Word) -> bool
    ensures { result ≡ right_head head.0 }
{
    head.is(WordKind::PageHead) && head.is_well_formed() && is_sized(head.length())
}

// Whether the head of a page is right when its bytes are read in the other order.
fn has_foreign_head(page: &[u8; PAGE]) -> bool
    ensures { result ≡ foreign_head page.now }
{
    is_right_head(Word(u32::from_be_bytes([page[0], page[1], page[2], page[3]])))
}

// Why a page is refused, by its head and by whether the page before it is empty.
fn cause_of(head: Word, after_empty: bool) -> Cause
    ensures { result ≡ cause_of after_empty head.0 }
{
    if head.0 == 0 {
        Cause::EmptyPage
    } else if !head.is(WordKind::PageHead) {
        Cause::Kind
    } else if !head.is_well_formed() {
        Cause::ZeroBits
    } else if !is_sized(head.length()) {
        Cause::Length
    } else if after_empty {
        Cause::AfterEmpty
    } else {
        Cause::AfterWords
    }
}

// Which byte of a page is wrong.
fn wrong_byte(cause: Cause, page: &[u8; PAGE]) -> usize
    ensures { result ≡ wrong_byte cause page.now }
{
    match cause {
        Cause::Kind => 3,
        // The bits that must be zero are in bytes 1, 2 and 3.
        Cause::ZeroBits => past_zeros(&page[0..3], 1),
        Cause::Length | Cause::AfterEmpty => 0,
        Cause::AfterWords => past_zeros(page, 4 + 4 * head_of(page).length()),
        Cause::EmptyPage => past_zeros(page, 0),
    }
}

// Whether the page before a place is empty.
fn is_after_empty(bytes: &[u8], place: usize) -> bool
    requires { place ≤ length bytes.now }
    ensures { result ≡ after_empty place bytes.now }
{
    place >= PAGE && is_zero(&bytes[place - PAGE..place])
}

// What is wrong with the page at the place of a fault.
fn explain(bytes: &[u8], fault: Fault) -> Diagnosis
    requires page { fault.place + 512 ≤ length bytes.now }
    requires size { length bytes.now ≤ 65536 }
    ensures { told_diagnosis result ≡ explained bytes.now (told_fault fault) }
{
    let place = fault.place;
    let page = bytes[place..].first_chunk().unwrap();
    let cause = cause_of(head_of(page), is_after_empty(bytes, place));
    Diagnosis {
        fault,
        byte: place + wrong_byte(cause, page),
        cause,
        foreign: has_foreign_head(page),
    }
}

// What is wrong with the pages of an image that its check refuses. None where it accepts them, or where their number of bytes is wrong.
pub fn diagnose(bytes: &[u8]) -> Option<Diagnosis>
    ensures answer { option_map told_diagnosis result ≡ diagnosis bytes.now }
    ensures refused { MatchOption result (Accepted bytes.now) (λ d. mount_check bytes.now ≡ Err (told_fault d.fault)) }
    ensures within { IfSome result (λ d. Within bytes.now d.fault.place d.byte) }
    ensures cause { IfSome result (λ d. Says d.cause bytes.now d.fault.place d.byte) }
    ensures foreign { IfSome result (λ d. Foreign bytes.now d.fault.place (number_of d.fault.refusal) d.foreign) }
    ensures turned { TurnedFound bytes.now (option_map told_diagnosis result) }
{
    let fault = PageMailbox::check(bytes).err()?;
    match fault.refusal {
        Refusal::Memory => None,
        _ => Some(explain(bytes, fault)),
    }
}
