//! The command that keeps a join of two tables through steps.
ghost use Rattle.std.specs.Prelude.{◌≡◌, count_by, map, nat_lt};
ghost use Rattle.muigratu.specs.Inputs.{is_input};

use crate::files::read_text;
use clap::ArgMatches;
use std::alloc::Global;
use std::io::Input;
use std::rt::Files;
use std::thread::Threads;
use tb_asked::delta_call;
use tb_delta_front::{DeltaCall, delta_table_text, delta_text};
use tb_front::{FrontFault, TextOptions};
use tb_sentences::{Failure, text_or_failure};
use tb_text::Text;
use tb_words::{WordFault, needed};

// Whether more than one of the files is standard input.
fn are_many_inputs(files: &[&str]) -> bool
    ensures { result ≡ nat_lt 1 (count_by is_input (map (λ f. f.now) files.now)) }
{
    files.iter().filter(|file| **file == "-").count() > 1
}

// The texts of the files.
#[derive(Drop)]
struct Texts {
    left: Vec<u8>,
    right: Vec<u8>,
    steps: Vec<u8>,
}

fn read_texts<'a>(
    rt: &(impl Files + Input),
    alloc: Global,
    left: &'a str,
    right: &'a str,
    steps: &'a str,
) -> Result<Texts, Failure<'a>> {
    let left = read_text(rt, alloc, left)?;
    let right = read_text(rt, alloc, right)?;
    let steps = read_text(rt, alloc, steps)?;
    Ok(Texts { left, right, steps })
}

fn done(
    rt: &(impl Threads + Sync),
    alloc: Global,
    options: &TextOptions,
    texts: Texts,
    call: &DeltaCall,
    table: bool,
) -> Result<Text, FrontFault> {
    let Texts { left, right, steps } = texts;
    if table {
        delta_table_text(rt, alloc, left, right, steps, call, options)
    } else {
        delta_text(rt, alloc, left, right, steps, call, options)
    }
}

/// The text of what steps change of a join, or of the joined table behind them.
pub(crate) fn changed<'a>(
    rt: &(impl Files + Input + Threads + Sync),
    alloc: Global,
    options: &TextOptions,
    matches: &ArgMatches<'a>,
) -> Result<Text, Failure<'a>> {
    let left = needed(matches, "LEFT")?;
    let right = needed(matches, "RIGHT")?;
    let steps = needed(matches, "steps")?;
    if are_many_inputs(&[left, right, steps]) {
        return Err(Failure::Words(WordFault::OneInput));
    }
    let call = delta_call(alloc, matches)?;
    let texts = read_texts(rt, alloc, left, right, steps)?;
    let outcome = done(rt, alloc, options, texts, &call, matches.get_flag("table"));
    text_or_failure(&[left, right, steps], outcome)
}
