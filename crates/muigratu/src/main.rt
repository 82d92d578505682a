//! Joins and reshapes tables that lie in files.
#![tactic(auto)]

mod deltas;
mod explaining;
mod files;
mod groups;
mod plans;
mod request;
mod running;
mod shapes;
mod splits;
mod why;

use clap::ArgMatches;
use clap::error::ErrorKind;
use request::make_request;
use running::{TableCommand, run_command};
use splits::split_table;
use std::alloc::Global;
use std::env::{self, Env};
use std::io::{self, Input, IsTerminal};
use std::process::ExitCode;
use std::rt::Files;
use std::thread::{Threads, available_parallelism};
use std::time::Clock;
use tb_asked::Host;
use tb_sentences::Failure;
use tb_words::{WordFault, program};
use why::tell_why;

// The words that the program is called with, its name first.
fn words_given<'a>(rt: &(impl Env + AllocGlobal)) -> Result<Vec<String>, Failure<'a>> {
    let mut words = Vec::new(rt.alloc());
    match env::args(rt) {
        Ok(all) => {
            for word in all {
                words.push(word)?;
            }
            Ok(words)
        }
        Err(error) if error.kind() == io::ErrorKind::OutOfMemory => Err(Failure::OutOfMemory),
        Err(_) => Err(Failure::Words(WordFault::NotUtf8)),
    }
}

// Tells why there is no answer, and gives the status.
fn told(rt: &impl Eprint, failure: &Failure<'_>) -> u8 {
    // Where standard error is gone the status alone tells.
    let _ = eprintln!(rt; "muigratu: {failure}");
    failure.status()
}

// Prints what the parse of the words has to say, and gives the status.
fn shown(rt: &(impl Print + Eprint), error: &clap::Error) -> u8 {
    if error.kind() == ErrorKind::OutOfMemory {
        return told(rt, &Failure::OutOfMemory);
    }
    match error.print(rt) {
        Ok(()) if error.use_stderr() => 2,
        Ok(()) => 0,
        Err(error) => told(rt, &Failure::Writing("-", error)),
    }
}

// How many columns the screen has that standard output goes to, or 80 where that isn't told. Where it goes elsewhere, there is none.
fn screen_width(rt: &(impl Env + AllocGlobal), is_screen: bool) -> Option<usize> {
    if !is_screen {
        return None;
    }
    let columns = match env::var(rt, "COLUMNS") {
        Ok(columns) => columns.as_str().parse::<usize>().unwrap_or(0),
        Err(_) => 0,
    };
    Some(if columns == 0 { 80 } else { columns })
}

// How many processors there are, or 4 where that isn't told.
fn processors(rt: &impl Threads) -> u32 {
    match available_parallelism(rt) {
        Ok(count) => u32::try_from(count.get()).unwrap_or(u32::MAX),
        Err(_) => 4,
    }
}

// Does what the command of this name is asked, and gives the status.
fn done<'a>(
    rt: &(impl Files + Input + Print + Eprint + Clock + Threads + Sync),
    alloc: Global,
    host: Host,
    name: &str,
    matches: &ArgMatches<'a>,
) -> Result<u8, Failure<'a>> {
    if let Some(command) = TableCommand::named(name) {
        run_command(rt, alloc, host, command, matches)?;
        return Ok(0);
    }
    match name {
        "split" => {
            split_table(rt, alloc, matches)?;
            Ok(0)
        }
        "why" => tell_why(rt, alloc, matches),
        "request" => {
            make_request(rt, alloc, matches)?;
            Ok(0)
        }
        _ => Ok(2),
    }
}

// Does what the words ask, and gives the status.
fn run(
    rt: &(impl Files + Input + Print + Eprint + AllocGlobal + Clock + Threads + Sync),
    host: Host,
    words: &[String],
) -> u8 {
    let Ok(command) = program(rt.alloc()) else {
        return told(rt, &Failure::OutOfMemory);
    };
    let matches = match command.try_get_matches_from(words) {
        Ok(matches) => matches,
        Err(error) => return shown(rt, &error),
    };
    let Some((name, matches)) = matches.subcommand() else {
        return 2;
    };
    match done(rt, rt.alloc(), host, name, matches) {
        Ok(status) => status,
        Err(failure) => told(rt, &failure),
    }
}

fn main(rt: HostRuntime) -> ExitCode {
    match words_given(&rt) {
        Ok(words) => {
            let host = Host {
                screen: screen_width(&rt, rt.stdout().is_terminal()),
                attended: rt.stderr().is_terminal(),
                processors: processors(&rt),
            };
            ExitCode::from(run(&rt, host, &words))
        }
        Err(failure) => ExitCode::from(told(&rt, &failure)),
    }
}
