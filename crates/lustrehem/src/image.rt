// What is done with a card image after the calls.
use crate::show::Hex;
use anyhow::anyhow;
use cards::card_record::CardRecord;
use crdt::kind::Crdt;
use fetches::fetch::fetch;
use images::turns::turn_round;
use mailboxes::mailbox::Mailbox;
use page_mailbox::PageMailbox;
use stations::station::Station;
use std::io::Write;
use words::refusal::Refusal;
use words::word::LONGEST;

// The words of each message that waits.
pub(crate) fn list_messages<W: Write>(out: &mut W, image: &mut [u8; 4096]) -> anyhow::Result<()> {
    let mailbox = PageMailbox::mount(image);
    for k in 0..usize::from(mailbox.count()) {
        show_message(out, &mailbox, k)?;
    }
    Ok(())
}

fn show_message<M: Mailbox, W: Write>(out: &mut W, mailbox: &M, k: usize) -> anyhow::Result<()> {
    let mut words = [0; LONGEST];
    let n = mailbox.read(k, &mut words)?;
    let message = Hex::<u32, 8>(&words[..n.min(LONGEST)]);
    writeln!(out, "  message {k}: {message}")?;
    Ok(())
}

// A copy of the last message with one bit turned over, put beside the others.
fn put_damaged<M: Mailbox>(mailbox: &mut M) -> Result<(), Refusal> {
    let mut words = [0; LONGEST];
    let n = mailbox.read(4, &mut words)?.min(LONGEST);
    words[1] ^= 0x0001_0000;
    mailbox.put(&words[..n])
}

// A damaged copy of a message is fetched.
pub(crate) fn damaged_copy<W: Write>(
    out: &mut W,
    stations: &mut [Station<CardRecord>],
    image: &mut [u8; 4096],
) -> anyhow::Result<()> {
    let mut mailbox = PageMailbox::mount(image);
    put_damaged(&mut mailbox).map_err(|_| anyhow!("no room for a damaged copy"))?;
    let mut words = [0; LONGEST];
    match fetch(stations, &mailbox, 1, 5, &mut words) {
        Ok(n) => writeln!(out, "a damaged copy was taken as {n} words")?,
        Err(fault) => writeln!(out, "a damaged copy: {fault}")?,
    }
    Ok(())
}

// The same image as a station of the other byte order would have written it.
pub(crate) fn other_order<W: Write>(out: &mut W, image: &mut [u8; 4096]) -> anyhow::Result<()> {
    turn_round(image);
    match PageMailbox::check(image) {
        Ok(count) => writeln!(
            out,
            "the image in the other byte order has {count} messages"
        )?,
        Err(fault) => writeln!(out, "the image in the other byte order: {fault}")?,
    }
    Ok(())
}
