//! The commands over tables, from their words to the text that is written.

use crate::deltas::changed;
use crate::files::write_text;
use crate::groups::grouped;
use crate::plans::planned;
use crate::shapes::{joined, marked, pivoted, unpivoted};
use clap::ArgMatches;
use std::alloc::Global;
use std::io::Input;
use std::rt::Files;
use std::thread::Threads;
use std::time::Clock;
use tb_asked::{Host, text_options};
use tb_front::TextOptions;
use tb_sentences::Failure;
use tb_text::Text;

/// A command over tables.
#[derive(Clone, Copy)]
pub(crate) enum TableCommand {
    Join,
    Pivot,
    Unpivot,
    Dummies,
    Plan,
    Delta,
    Group,
}

impl TableCommand {
    /// The command of this name, if there is one.
    pub(crate) fn named(name: &str) -> Option<TableCommand> {
        match name {
            "join" => Some(TableCommand::Join),
            "pivot" => Some(TableCommand::Pivot),
            "unpivot" => Some(TableCommand::Unpivot),
            "dummies" => Some(TableCommand::Dummies),
            "plan" => Some(TableCommand::Plan),
            "delta" => Some(TableCommand::Delta),
            "group" => Some(TableCommand::Group),
            _ => None,
        }
    }
}

// The text that the command answers.
fn answer<'a>(
    rt: &(impl Files + Input + Eprint + Clock + Threads + Sync),
    alloc: Global,
    attended: bool,
    options: &TextOptions,
    command: TableCommand,
    matches: &ArgMatches<'a>,
) -> Result<Text, Failure<'a>> {
    match command {
        TableCommand::Join => joined(rt, alloc, attended, options, matches),
        TableCommand::Pivot => pivoted(rt, alloc, options, matches),
        TableCommand::Unpivot => unpivoted(rt, alloc, options, matches),
        TableCommand::Dummies => marked(rt, alloc, options, matches),
        TableCommand::Plan => planned(rt, alloc, options, matches),
        TableCommand::Delta => changed(rt, alloc, options, matches),
        TableCommand::Group => grouped(rt, alloc, options, matches),
    }
}

// The same by the words that all of these commands share. Tables for people are as wide as the screen, if they go there.
fn text_asked<'a>(
    rt: &(impl Files + Input + Eprint + Clock + Threads + Sync),
    alloc: Global,
    host: Host,
    command: TableCommand,
    matches: &ArgMatches<'a>,
) -> Result<Text, Failure<'a>> {
    let output = matches.get_str("output").unwrap_or("-");
    let screen = host.screen.filter(|_| output == "-");
    let options = text_options(alloc, &Host { screen, ..host }, matches)?;
    answer(rt, alloc, host.attended, &options, command, matches)
}

/// Does what the command is asked: the text is made whole before any of it is written.
pub(crate) fn run_command<'a>(
    rt: &(impl Files + Input + Print + Eprint + Clock + Threads + Sync),
    alloc: Global,
    host: Host,
    command: TableCommand,
    matches: &ArgMatches<'a>,
) -> Result<(), Failure<'a>> {
    let text = text_asked(rt, alloc, host, command, matches)?;
    write_text(rt, alloc, matches.get_str("output"), &text)
}
