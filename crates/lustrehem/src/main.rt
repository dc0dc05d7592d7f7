// The program: the built-in task, a script of calls, and what is on a card image. All that it prints is written by this crate, and all
// that it does by the proved calls below it.
#![tactic(auto)]

mod cluster;
mod day;
mod failure;
mod files;
mod help;
mod image;
mod inspect;
mod record;
mod rehearse;
mod script;
mod show;
mod store;
mod task;
#[cfg(test)]
mod tests;

use crate::failure::Failure;
use crate::files::{load_image, load_script};
use crate::help::HELP;
use crate::inspect::inspect;
use crate::rehearse::rehearse;
use cards::card_record::CardRecord;
use cards::loan_record::LoanRecord;
use scripts::record_kind::RecordKind;
use std::env;
use std::io::{BufWriter, Write};
use std::process::ExitCode;

fn main(rt: HostRuntime) -> ExitCode {
    match run(&rt) {
        Ok(()) => ExitCode::SUCCESS,
        Err(failure) => {
            let _ = eprintln!(rt; "Error: {failure}");
            ExitCode::FAILURE
        }
    }
}

// Does what the arguments ask for, and writes out what it has to say, also where it fails.
fn run(rt: &HostRuntime) -> Result<(), Failure> {
    let mut out = BufWriter::new(rt.alloc(), rt.stdout())?;
    let ended = choose(rt, &mut out);
    let written = out.flush();
    ended?;
    Ok(written?)
}

fn choose<W: Write>(rt: &HostRuntime, out: &mut W) -> Result<(), Failure> {
    let mut args = env::args(rt)?;
    let _program = args.next();
    let Some(mode) = args.next() else {
        return Ok(task::run(out)?);
    };
    match (mode.as_str(), args.next(), args.next(), args.next()) {
        ("--help", None, None, None) => Ok(writeln!(out, "{HELP}")?),
        ("run", Some(script), image, None) => run_script(rt, out, script.as_str(), image),
        ("inspect", Some(image), kind, None) => run_inspect(rt, out, image.as_str(), kind),
        _ => Err(Failure::Usage),
    }
}

fn run_script<W: Write>(
    rt: &HostRuntime,
    out: &mut W,
    name: &str,
    image: Option<String>,
) -> Result<(), Failure> {
    let script = load_script(rt, name)?;
    let image = image
        .map(|image| load_image(rt, image.as_str()))
        .transpose()?;
    rehearse(rt, out, &script, image.as_deref())
}

fn run_inspect<W: Write>(
    rt: &HostRuntime,
    out: &mut W,
    name: &str,
    kind: Option<String>,
) -> Result<(), Failure> {
    let kind = record_kind(kind.as_deref())?;
    let mut bytes = load_image(rt, name)?;
    match kind {
        RecordKind::Card => inspect::<CardRecord, W>(out, name, &mut bytes),
        RecordKind::Loan => inspect::<LoanRecord, W>(out, name, &mut bytes),
    }
}

// The record kind of an inspection.
fn record_kind(name: Option<&str>) -> Result<RecordKind, Failure> {
    match name {
        None | Some("card") => Ok(RecordKind::Card),
        Some("loan") => Ok(RecordKind::Loan),
        Some(_) => Err(Failure::Usage),
    }
}
