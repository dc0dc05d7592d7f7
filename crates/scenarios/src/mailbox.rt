// Mailboxes: what fits, the order of messages, discards, and pages that are refused.
use mailboxes::mailbox::Mailbox;
use mailboxes::overflow::Overflow;
use page_mailbox::PageMailbox;
use std::process::Abort;
use word_mailbox::WordMailbox;
use words::fault::{Fault, Layer};
use words::refusal::Refusal;

// The first word of message k, with its length.
fn seen<M: Mailbox>(mailbox: &M, k: usize) -> Result<(usize, u32), Refusal> {
    let mut words = [0; 127];
    let n = mailbox.read(k, &mut words)?;
    Ok((n, words[0]))
}

#[test]
fn ten_words_fit_nine(rt: HostRuntime) {
    let mut memory = [7; 10];
    let mut mailbox = WordMailbox::open(&mut memory);
    assert_eq!(rt; mailbox.count(), 0);
    assert!(rt; !mailbox.fits(10));
    assert!(rt; mailbox.fits(9));
    assert!(rt; !mailbox.fits(0));
    assert_eq!(rt; mailbox.put(&[]), Err(Refusal::Long));
    assert_eq!(rt; mailbox.put(&[1; 128]), Err(Refusal::Long));
    assert_eq!(rt; mailbox.put(&[1; 10]), Err(Refusal::Full));
    assert_eq!(rt; mailbox.put(&[3; 9]), Ok(()));
    assert!(rt; !mailbox.fits(1));
    assert_eq!(rt; mailbox.count(), 1);
    assert_eq!(rt; seen(&mailbox, 0), Ok((9, 3)));
    assert_eq!(rt; seen(&mailbox, 1), Err(Refusal::Absent));
    let mut few = [0; 126];
    assert_eq!(rt; mailbox.read(0, &mut few), Err(Refusal::Room));
}

// Messages of one word each, taken out from the front, the middle and the end.
fn discards<M: Mailbox>(rt: &impl Abort, mailbox: &mut M) {
    assert_eq!(rt; mailbox.put(&[10]), Ok(()));
    assert_eq!(rt; mailbox.put(&[11, 11]), Ok(()));
    assert_eq!(rt; mailbox.put(&[12]), Ok(()));
    assert_eq!(rt; mailbox.put(&[13, 13, 13]), Ok(()));
    assert_eq!(rt; mailbox.discard(1), Ok(()));
    assert_eq!(rt; seen(mailbox, 0), Ok((1, 10)));
    assert_eq!(rt; seen(mailbox, 1), Ok((1, 12)));
    assert_eq!(rt; seen(mailbox, 2), Ok((3, 13)));
    assert_eq!(rt; mailbox.discard(2), Ok(()));
    assert_eq!(rt; mailbox.discard(0), Ok(()));
    assert_eq!(rt; mailbox.discard(1), Err(Refusal::Absent));
    assert_eq!(rt; mailbox.count(), 1);
    assert_eq!(rt; seen(mailbox, 0), Ok((1, 12)));
}

#[test]
fn word_discards(rt: HostRuntime) {
    let mut memory = [7; 20];
    let mut mailbox = WordMailbox::open(&mut memory);
    discards(&rt, &mut mailbox);
}

#[test]
fn page_discards(rt: HostRuntime) {
    let mut memory = [7; 2048];
    let mut mailbox = PageMailbox::wipe(&mut memory);
    assert_eq!(rt; mailbox.count(), 0);
    discards(&rt, &mut mailbox);
}

#[test]
fn word_memory_of_a_bad_size(rt: HostRuntime) {
    let mut memory = [0; 4097];
    let size = Fault {
        refusal: Refusal::Memory,
        place: 0,
        layer: Layer::Mailbox,
    };
    assert_eq!(rt; WordMailbox::check(&memory), Err(size));
    let mailbox = WordMailbox::open(&mut memory);
    assert!(rt; !mailbox.fits(1));
    assert_eq!(rt; mailbox.count(), 0);
}

fn wrong(refusal: Refusal, place: usize) -> Result<usize, Fault> {
    Err(Fault {
        refusal,
        place,
        layer: Layer::Mailbox,
    })
}

#[test]
fn page_memory_of_a_bad_size(rt: HostRuntime) {
    let memory = [0u8; 1000];
    assert_eq!(rt; PageMailbox::check(&memory), wrong(Refusal::Memory, 0));
    assert_eq!(rt;
        PageMailbox::check(&memory[0..0]),
        wrong(Refusal::Memory, 0)
    );
    let large = [0u8; 66_048];
    assert_eq!(rt; PageMailbox::check(&large), wrong(Refusal::Memory, 0));
    let mut short = [9u8; 511];
    {
        let mailbox = PageMailbox::wipe(&mut short);
        assert!(rt; !mailbox.fits(1));
    }
    assert_eq!(rt; short[0], 9);
    assert_eq!(rt; short[510], 9);
}

// Four pages, the first of them with a message each, as bytes that were worked out by hand.
fn image(messages: usize) -> [u8; 2048] {
    let mut bytes = [0u8; 2048];
    for page in 0..messages.min(4) {
        bytes[512 * page] = 1;
        bytes[512 * page + 3] = 0xF0;
        bytes[512 * page + 4] = 0x78;
        bytes[512 * page + 7] = 0x12;
    }
    bytes
}

#[test]
fn a_mounted_image(rt: HostRuntime) {
    let mut bytes = image(3);
    assert_eq!(rt; PageMailbox::check(&bytes), Ok(3));
    let mailbox = PageMailbox::mount(&mut bytes);
    assert_eq!(rt; mailbox.count(), 3);
    assert!(rt; mailbox.fits(127));
    assert_eq!(rt; seen(&mailbox, 0), Ok((1, 0x1200_0078)));
    assert_eq!(rt; seen(&mailbox, 2), Ok((1, 0x1200_0078)));
}

// What the check answers where one byte of an image is another.
fn with(messages: usize, place: usize, byte: u8) -> Result<usize, Fault> {
    let mut bytes = image(messages);
    if place < 2048 {
        bytes[place] = byte;
    }
    PageMailbox::check(&bytes)
}

// In the first page, those in the middle and the last.
#[test]
fn pages_that_are_refused(rt: HostRuntime) {
    for page in 0..4 {
        let first = 512 * page;
        assert_eq!(rt; with(4, first + 3, 0x80), wrong(Refusal::Kind, first));
        assert_eq!(rt; with(4, first + 1, 1), wrong(Refusal::Form, first));
        assert_eq!(rt; with(4, first, 128), wrong(Refusal::Form, first));
        assert_eq!(rt; with(4, first, 0), wrong(Refusal::Form, first));
        assert_eq!(rt; with(4, first + 8, 1), wrong(Refusal::Form, first));
        assert_eq!(rt; with(4, first + 511, 1), wrong(Refusal::Form, first));
    }
}

// A byte that is not zero in a page with a zero head, and a page head after such a page.
#[test]
fn empty_pages_that_are_refused(rt: HostRuntime) {
    for page in 0..4 {
        let first = 512 * page;
        assert_eq!(rt; with(page, first + 4, 1), wrong(Refusal::Form, first));
        assert_eq!(rt; with(page, first + 511, 1), wrong(Refusal::Form, first));
    }
    for page in 0..3 {
        let first = 512 * page;
        let mut bytes = image(4);
        bytes[first] = 0;
        bytes[first + 3] = 0;
        bytes[first + 4] = 0;
        bytes[first + 7] = 0;
        assert_eq!(rt;
            PageMailbox::check(&bytes),
            wrong(Refusal::Form, first + 512)
        );
    }
}

// The head of a message in the other byte order reads as a word of kind 0.
#[test]
fn the_other_byte_order(rt: HostRuntime) {
    let mut bytes = [0u8; 512];
    bytes[0] = 0xF0;
    bytes[3] = 0x09;
    assert_eq!(rt; PageMailbox::check(&bytes), wrong(Refusal::Kind, 0));
}

// Mixed puts and discards on a store of one message and one of three.
fn mixed<A: Mailbox + Drop, B: Mailbox + Drop>(rt: &impl Abort, first: A, second: B) {
    let mut both = Overflow::new(first, second);
    assert_eq!(rt; both.put(&[1, 1]), Ok(()));
    assert_eq!(rt; both.put(&[2, 2]), Ok(()));
    assert_eq!(rt; both.discard(0), Ok(()));
    // The second is not empty, so the first does not take it, though it would fit.
    assert_eq!(rt; both.put(&[3, 3]), Ok(()));
    assert_eq!(rt; seen(&both, 0), Ok((2, 2)));
    assert_eq!(rt; seen(&both, 1), Ok((2, 3)));
    assert_eq!(rt; both.put(&[4, 4]), Ok(()));
    assert_eq!(rt; both.put(&[5, 5]), Err(Refusal::Full));
    assert_eq!(rt; both.count(), 3);
    assert_eq!(rt; both.discard(0), Ok(()));
    assert_eq!(rt; both.discard(0), Ok(()));
    assert_eq!(rt; both.discard(0), Ok(()));
    assert_eq!(rt; both.put(&[6, 6]), Ok(()));
    assert_eq!(rt; both.put(&[7, 7]), Ok(()));
    assert_eq!(rt; seen(&both, 0), Ok((2, 6)));
    assert_eq!(rt; seen(&both, 1), Ok((2, 7)));
}

#[test]
fn overflow_order(rt: HostRuntime) {
    let mut small = [0; 3];
    let mut large = [0; 9];
    mixed(
        &rt,
        WordMailbox::open(&mut small),
        WordMailbox::open(&mut large),
    );
}
