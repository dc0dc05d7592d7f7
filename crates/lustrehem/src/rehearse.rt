// A run of a script: one cluster after another.
use crate::cluster::{Opening, Unready, serve};
use crate::failure::Failure;
use crate::record::Recorded;
use crate::script::Script;
use crate::store::Imaged;
use cards::card_record::CardRecord;
use cards::loan_record::LoanRecord;
use crdt::kind::Crdt;
use mailboxes::overflow::Overflow;
use page_mailbox::PageMailbox;
use scripts::command::Command;
use scripts::record_kind::RecordKind;
use scripts::store::{MailboxShape, Store};
use stations::init::init;
use stations::station::Station;
use std::alloc::{AllocError, Global};
use std::io;
use std::io::Write;
use word_mailbox::WordMailbox;
use words::fault::Fault;

// What a script has chosen.
#[derive(Clone, Copy)]
struct Settings {
    record: RecordKind,
    stations: usize,
    shape: MailboxShape,
}

impl Settings {
    // What a script begins with.
    fn first() -> Settings {
        Settings {
            record: RecordKind::Card,
            stations: 3,
            shape: MailboxShape::One(Store::Pages(4096)),
        }
    }

    // The same with what a line chooses.
    fn with(self, command: Command) -> Settings {
        let mut settings = self;
        match command {
            Command::Record(record) => settings.record = record,
            Command::Stations(stations) => settings.stations = stations,
            Command::Mailbox(shape) => settings.shape = shape,
            _ => {}
        }
        settings
    }
}

// Runs a script. The image is what `mailbox image` mounts.
pub(crate) fn rehearse<'a, W: Write>(
    rt: &'a HostRuntime,
    out: &'a mut W,
    text: &'a [u8],
    image: Option<&'a [u8]>,
) -> Result<(), Failure> {
    let mut script = Script::new(rt, out, text, image);
    let mut settings = Settings::first();
    let mut asked = None;
    // A count, since a loop has to end; a measure would be said in more contracts, as in `serve`. Each turn but the last reads a line.
    for _ in 0..=text.len() {
        let next = match settings.record {
            RecordKind::Card => begin::<CardRecord, W>(rt.alloc(), &mut script, settings, asked)?,
            RecordKind::Loan => begin::<LoanRecord, W>(rt.alloc(), &mut script, settings, asked)?,
        };
        let Some(command) = next else {
            break;
        };
        settings = settings.with(command);
        asked = Some(command);
    }
    script.verdict()
}

// The memory of a store.
#[derive(Drop)]
enum Memory {
    Words(Vec<u32>),
    Pages(Pages),
}

// The bytes of pages, and what opening them does.
#[derive(Drop)]
enum Pages {
    Wiped(Vec<u8>),
    // A copy of the image.
    Mounted(Vec<u8>),
}

impl Pages {
    fn bytes(&self) -> &[u8] {
        match self {
            Pages::Wiped(bytes) | Pages::Mounted(bytes) => bytes,
        }
    }

    // Pages that are wiped need no second check of their bytes.
    fn open(&mut self) -> PageMailbox<'_> {
        match self {
            Pages::Wiped(bytes) => PageMailbox::wipe(bytes),
            Pages::Mounted(bytes) => PageMailbox::mount(bytes),
        }
    }
}

impl Memory {
    // All zero, or a copy of the image.
    fn of(heap: Global, store: Store, image: Option<&[u8]>) -> Result<Memory, AllocError> {
        Ok(match store {
            Store::Words(count) => Memory::Words(vec![in heap; 0; count]?),
            Store::Pages(count) => Memory::Pages(Pages::Wiped(vec![in heap; 0; count]?)),
            Store::Image => Memory::Pages(Pages::Mounted(image.unwrap_or(&[]).to_vec(heap)?)),
        })
    }

    // Whether a mailbox can be made of it.
    fn check(&self) -> Result<(), Fault> {
        match self {
            Memory::Words(words) => WordMailbox::check(words),
            Memory::Pages(pages) => PageMailbox::check(pages.bytes()).map(|_| ()),
        }
    }
}

// The stores of a shape.
fn parts(shape: MailboxShape) -> (Store, Option<Store>) {
    match shape {
        MailboxShape::One(store) => (store, None),
        MailboxShape::Overflow(first, second) => (first, Some(second)),
    }
}

// Makes a cluster and carries out lines up to one that makes another, which it answers.
fn begin<C: Recorded, W: Write>(
    heap: Global,
    script: &mut Script<W>,
    settings: Settings,
    asked: Option<Command>,
) -> Result<Option<Command>, Failure> {
    let mut table = vec![in heap; Station::<C>::new(0); settings.stations]?;
    let image = script.image;
    let (first, second) = parts(settings.shape);
    let low = Memory::of(heap, first, image)?;
    let high = second
        .map(|store| Memory::of(heap, store, image))
        .transpose()?;
    let made = init(&mut table);
    let checked = low
        .check()
        .and_then(|()| high.as_ref().map_or(Ok(()), Memory::check));
    let opening = asked.map(|asked| Opening {
        asked,
        ready: match asked {
            Command::Stations(_) => made.map_err(Unready::Table),
            Command::Mailbox(_) => checked.map_err(Unready::Mailbox),
            _ => Ok(()),
        },
    });
    Ok(open(script, opening, &mut table, low, high)?)
}

// Opens the mailbox over its memory, and serves the cluster.
fn open<C: Recorded, W: Write>(
    script: &mut Script<W>,
    opening: Option<Opening>,
    table: &mut [Station<C>],
    low: Memory,
    high: Option<Memory>,
) -> io::Result<Option<Command>> {
    match (low, high) {
        (Memory::Words(mut words), None) => {
            serve(script, opening, table, &mut WordMailbox::open(&mut words))
        }
        (Memory::Pages(mut pages), None) => serve(script, opening, table, &mut pages.open()),
        (Memory::Words(mut words), Some(high)) => {
            beside(script, opening, table, WordMailbox::open(&mut words), high)
        }
        (Memory::Pages(mut pages), Some(high)) => {
            beside(script, opening, table, pages.open(), high)
        }
    }
}

// Opens the second part of an overflow, and serves the cluster.
fn beside<C: Recorded, A: Imaged + Drop, W: Write>(
    script: &mut Script<W>,
    opening: Option<Opening>,
    table: &mut [Station<C>],
    first: A,
    high: Memory,
) -> io::Result<Option<Command>> {
    match high {
        Memory::Words(mut words) => {
            let mut mailbox = Overflow::new(first, WordMailbox::open(&mut words));
            serve(script, opening, table, &mut mailbox)
        }
        Memory::Pages(mut pages) => {
            let mut mailbox = Overflow::new(first, pages.open());
            serve(script, opening, table, &mut mailbox)
        }
    }
}
