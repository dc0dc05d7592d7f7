// A day at three stations that look after the cards of one family: a history of calls, on messages that wait on a card's pages.
// One message is lost, one comes twice, one is overtaken by a newer one. Then power is lost, the same bytes are mounted again,
// and a damaged copy and an image in the other byte order are refused.
use crate::day::{CALLS, calls};
use crate::image::{damaged_copy, list_messages, other_order};
use crate::show::{AnswerOf, CallOf, Counts};
use anyhow::anyhow;
use cards::card_record;
use cards::card_record::{CardRecord, CardReport};
use cards::verdict::judge;
use mailboxes::mailbox::Mailbox;
use page_mailbox::PageMailbox;
use replication::answer::{Answer, Reply};
use replication::call::Call;
use replication::replay::replay;
use stations::station::Station;
use std::io::Write;
use words::word::LONGEST;

// How many erased blocks the family is rated for.
const RATED: u32 = 60;

// How many calls were made by noon.
const NOON: usize = 19;

pub(crate) fn run<W: Write>(out: &mut W) -> anyhow::Result<()> {
    writeln!(
        out,
        "card family LX-4, rated for {RATED} erased blocks, at three stations"
    )?;
    let calls = calls();
    let mut image = [0u8; 4096];
    let mut stations = [Station::new(0); 3];
    let _ = history(
        &mut stations,
        PageMailbox::wipe(&mut image),
        &calls[0..NOON],
    )?;
    writeln!(out, "by noon, after {NOON} calls:")?;
    decide(out, &stations[0])?;
    writeln!(out, "the whole day:")?;
    let answers = history(&mut stations, PageMailbox::wipe(&mut image), &calls)?;
    list_answers(out, &calls, &answers)?;
    writeln!(
        out,
        "who has fetched a late full message from all others has everything:"
    )?;
    for station in &stations {
        decide(out, station)?;
    }
    writeln!(out, "power is lost; the same bytes are mounted again:")?;
    list_messages(out, &mut image)?;
    damaged_copy(out, &mut stations, &mut image)?;
    other_order(out, &mut image)
}

// Runs calls on an empty mailbox, lets the mailbox go, and gives the answers.
fn history<M: Mailbox + Drop>(
    stations: &mut [Station<CardRecord>],
    mut mailbox: M,
    calls: &[Call<CardReport>],
) -> anyhow::Result<[Answer; CALLS]> {
    let mut answers = [Ok(Reply::Done); CALLS];
    let mut words = [0; LONGEST];
    replay(stations, &mut mailbox, calls, &mut answers, &mut words).map_err(|_| anyhow!(
        "the calls were not begun"
    ))?;
    Ok(answers)
}

// Each call with its answer.
fn list_answers<W: Write>(
    out: &mut W,
    calls: &[Call<CardReport>],
    answers: &[Answer],
) -> anyhow::Result<()> {
    for (call, answer) in calls.iter().zip(answers.iter()) {
        writeln!(out, "  {}: {}", CallOf(call), AnswerOf(answer))?;
    }
    Ok(())
}

// A station says what it holds, and what becomes of the family.
fn decide<W: Write>(out: &mut W, station: &Station<CardRecord>) -> anyhow::Result<()> {
    let number = station.number;
    let clock = Counts::of(|s| station.clock.count(s));
    let card = &station.record;
    let erased = Counts::of(|s| card.left.left.count(s));
    let total = card_record::total_erased(card);
    let net = card_record::net_spares(card);
    let groups = card_record::retired_groups(card);
    let firmware = card_record::highest_firmware(card);
    writeln!(
        out,
        "  station {number}: clock {clock}, erased {erased}, net {net}, retired groups {groups}, firmware {firmware}"
    )?;
    let verdict = judge(total, RATED);
    writeln!(
        out,
        "  station {number}: total erased {total} of {RATED}: {verdict}"
    )?;
    Ok(())
}
