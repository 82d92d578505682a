//! The commands that join two tables that lie in files, and that reshape one.

use crate::explaining::{Audience, Explaining, Stage};
use crate::files::read_text;
use clap::ArgMatches;
use std::alloc::Global;
use std::io::Input;
use std::rt::Files;
use std::thread::Threads;
use std::time::Clock;
use tb_asked::{dummies_call, join_call, pivot_call, unpivot_call};
use tb_front::{TextOptions, dummies_text, join_texts, pivot_text, unpivot_text};
use tb_sentences::{Failure, text_or_failure};
use tb_text::Text;
use tb_words::{WordFault, needed};

// The texts of the files.
#[derive(Drop)]
struct TwoTexts {
    left: Vec<u8>,
    right: Vec<u8>,
}

fn read_two<'a>(
    rt: &(impl Files + Input),
    alloc: Global,
    left: &'a str,
    right: &'a str,
) -> Result<TwoTexts, Failure<'a>> {
    let left = read_text(rt, alloc, left)?;
    let right = read_text(rt, alloc, right)?;
    Ok(TwoTexts { left, right })
}

// Who is told how the join goes.
fn audience(attended: bool, matches: &ArgMatches<'_>) -> Audience {
    if matches.get_flag("explain") {
        Audience::Asking
    } else if attended {
        Audience::Waiting
    } else {
        Audience::Nobody
    }
}

/// The text of two joined tables. Whoever attends is told how a long join goes.
pub(crate) fn joined<'a>(
    rt: &(impl Files + Input + Eprint + Clock + Threads + Sync),
    alloc: Global,
    attended: bool,
    options: &TextOptions,
    matches: &ArgMatches<'a>,
) -> Result<Text, Failure<'a>> {
    let first = needed(matches, "LEFT")?;
    let second = needed(matches, "RIGHT")?;
    if first == "-" && second == "-" {
        return Err(Failure::Words(WordFault::OneInput));
    }
    let call = join_call(alloc, matches)?;
    let mut watch = Explaining::begun(rt, audience(attended, matches));
    let TwoTexts { left, right } = read_two(rt, alloc, first, second)?;
    let outcome = join_texts(rt, alloc, left, right, call, options, &mut watch);
    if outcome.is_ok() {
        watch.tell(Stage::Answered);
    }
    text_or_failure(&[first, second], outcome)
}

/// The text of a table that is made long.
pub(crate) fn unpivoted<'a>(
    rt: &(impl Files + Input + Threads + Sync),
    alloc: Global,
    options: &TextOptions,
    matches: &ArgMatches<'a>,
) -> Result<Text, Failure<'a>> {
    let file = needed(matches, "TABLE")?;
    let call = unpivot_call(alloc, matches)?;
    let text = read_text(rt, alloc, file)?;
    text_or_failure(&[file], unpivot_text(rt, alloc, text, call, options))
}

/// The text of a table that is made wide.
pub(crate) fn pivoted<'a>(
    rt: &(impl Files + Input + Threads + Sync),
    alloc: Global,
    options: &TextOptions,
    matches: &ArgMatches<'a>,
) -> Result<Text, Failure<'a>> {
    let file = needed(matches, "TABLE")?;
    let call = pivot_call(alloc, matches)?;
    let text = read_text(rt, alloc, file)?;
    text_or_failure(&[file], pivot_text(rt, alloc, text, call, options))
}

/// The text of a table with dummies.
pub(crate) fn marked<'a>(
    rt: &(impl Files + Input + Threads + Sync),
    alloc: Global,
    options: &TextOptions,
    matches: &ArgMatches<'a>,
) -> Result<Text, Failure<'a>> {
    let file = needed(matches, "TABLE")?;
    let call = dummies_call(alloc, matches)?;
    let text = read_text(rt, alloc, file)?;
    text_or_failure(&[file], dummies_text(rt, alloc, text, call, options))
}
