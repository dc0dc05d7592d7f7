// What is on a card image.
use crate::failure::Failure;
use crate::record::{RecordOf, Recorded};
use crate::show::Counts;
use counters::vector_clock::VectorClock;
use crdt::kind::Crdt;
use images::diagnose::diagnose;
use mailboxes::mailbox::Mailbox;
use messages::header::Header;
use messages::unpack::unpack;
use page_mailbox::PageMailbox;
use page_mailbox::bytes::PAGE;
use std::io::Write;
use std::{fmt, io};
use words::fault::{Fault, Layer};
use words::word::LONGEST;

// Says what is on the image of that name, where records are of kind C.
pub(crate) fn inspect<C: Recorded, W: Write>(
    out: &mut W,
    name: &str,
    bytes: &mut [u8],
) -> Result<(), Failure> {
    match PageMailbox::check(bytes) {
        Ok(count) => {
            let pages = bytes.len() / PAGE;
            writeln!(out, "{name}: {pages} pages, {count} messages")?;
            let mailbox = PageMailbox::mount(bytes);
            let refused = list::<C, PageMailbox, W>(out, &mailbox)?;
            if refused > 0 {
                return Err(Failure::Messages(refused));
            }
            Ok(())
        }
        Err(fault) => {
            writeln!(out, "{name}: refused, {fault}")?;
            explain(out, bytes)?;
            Err(Failure::Image)
        }
    }
}

// Every message that waits. Answers how many are refused.
fn list<C: Recorded, M: Mailbox, W: Write>(out: &mut W, mailbox: &M) -> io::Result<usize> {
    let mut refused = 0usize;
    for k in 0..usize::from(mailbox.count()) {
        match read_message::<C, M>(mailbox, k) {
            Ok(message) => writeln!(out, "message {k}: {message}")?,
            Err(fault) => {
                writeln!(out, "message {k}: refused, {fault}")?;
                refused = refused.saturating_add(1);
            }
        }
    }
    Ok(refused)
}

// A message of a record kind.
#[derive(Clone, Copy)]
struct Message<C> {
    header: Header,
    clock: VectorClock,
    record: C,
}

// Message k, where it is one of this record kind.
fn read_message<C: Crdt, M: Mailbox>(mailbox: &M, k: usize) -> Result<Message<C>, Fault> {
    let mut words = [0; LONGEST];
    let n = mailbox
        .read(k, &mut words)
        .map_err(|refusal| Fault::plain(refusal, Layer::Mailbox))?
        .min(LONGEST);
    let mut clock = VectorClock::bottom();
    let mut record = C::bottom();
    let header = unpack(&words[0..n], &mut clock, &mut record)?;
    Ok(Message {
        header,
        clock,
        record,
    })
}

impl<C: Recorded> fmt::Display for Message<C> {
    fn fmt<W: fmt::Write>(&self, f: &mut fmt::Formatter<W>) -> fmt::Result {
        let record = RecordOf(&self.record);
        match self.header {
            Header::Full { sender } => {
                let clock = Counts::of(|station| self.clock.count(station));
                write!(f, "full of station {sender}, clock {clock}, {record}")
            }
            Header::Delta { sender, span } => write!(
                f,
                "delta of station {sender}, from {} to {}, {record}",
                span.from, span.to
            ),
        }
    }
}

// Which byte is wrong, and whether the other byte order is the likely cause.
fn explain<W: Write>(out: &mut W, bytes: &[u8]) -> io::Result<()> {
    let Some(diagnosis) = diagnose(bytes) else {
        return Ok(());
    };
    writeln!(out, "byte {}: {}", diagnosis.byte, diagnosis.cause)?;
    if diagnosis.foreign {
        writeln!(
            out,
            "the page head is right in the other byte order: likely a station of that order wrote the image"
        )?;
    }
    Ok(())
}
