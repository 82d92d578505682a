//! The command that runs a plan over tables that lie in files.

use crate::files::{read_json, read_text};
use clap::ArgMatches;
use std::alloc::Global;
use std::io::Input;
use std::rt::Files;
use std::thread::Threads;
use tb_asked::{NamedFile, named_files};
use tb_front::TextOptions;
use tb_plan_front::{NamedText, NodeLine, PlanCall, plan_lines, plan_of, plan_text};
use tb_sentences::{Failure, TitleWords, front_failure, text_or_failure};
use tb_text::Text;
use tb_value::OutOfMemory;
use tb_words::{WordFault, needed};

// Refuses words by which two files would be read from standard input.
fn check_inputs<'a>(plan: &str, tables: &[NamedFile<'_>]) -> Result<(), WordFault<'a>> {
    let inputs = tables.iter().filter(|table| table.file == "-").count();
    if inputs > usize::from(plan != "-") {
        return Err(WordFault::OneInput);
    }
    Ok(())
}

fn read_plan<'a>(
    rt: &(impl Files + Input),
    alloc: Global,
    file: &'a str,
) -> Result<PlanCall, Failure<'a>> {
    let text = read_json(rt, alloc, file)?;
    match plan_of(alloc, &text) {
        Ok(call) => Ok(call),
        Err(fault) => Err(front_failure(&[file], fault)),
    }
}

fn names_of_files<'a>(
    alloc: Global,
    tables: &[NamedFile<'a>],
) -> Result<Vec<&'a str>, OutOfMemory> {
    let mut files = Vec::with_capacity(alloc, tables.len())?;
    for table in tables {
        files.push(table.file)?;
    }
    Ok(files)
}

fn read_named<'a>(
    rt: &(impl Files + Input),
    alloc: Global,
    table: NamedFile<'a>,
) -> Result<NamedText, Failure<'a>> {
    let NamedFile { name, file } = table;
    let text = read_text(rt, alloc, file)?;
    Ok(NamedText { name, text })
}

fn read_tables<'a>(
    rt: &(impl Files + Input),
    alloc: Global,
    tables: Vec<NamedFile<'a>>,
) -> Result<Vec<NamedText>, Failure<'a>> {
    let mut texts = Vec::with_capacity(alloc, tables.len())?;
    for table in tables {
        texts.push(read_named(rt, alloc, table)?)?;
    }
    Ok(texts)
}

fn write_line(text: &mut String, line: &NodeLine) -> Result<(), OutOfMemory> {
    for _ in 0..line.depth {
        text.push_str("  ")?;
    }
    let pushed = if line.pushed { ", pushed" } else { "" };
    let rows = if line.height == 1 { "row" } else { "rows" };
    let height = line.height;
    Ok(write!(
        text,
        "{}{pushed}: {height} {rows}\n",
        TitleWords(&line.title)
    )?)
}

// A line for each node, which stands behind its inputs and less far in.
fn lines_text(alloc: Global, lines: &[NodeLine]) -> Result<Text, OutOfMemory> {
    let mut text = String::new(alloc);
    for line in lines {
        write_line(&mut text, line)?;
    }
    Text::from_string(alloc, text)
}

// The nodes of the tree as they are run.
fn explained<'a>(
    rt: &(impl Threads + Sync),
    alloc: Global,
    options: &TextOptions,
    files: &[&'a str],
    texts: Vec<NamedText>,
    call: PlanCall,
) -> Result<Text, Failure<'a>> {
    match plan_lines(rt, alloc, texts, call, options) {
        Ok(lines) => Ok(lines_text(alloc, &lines)?),
        Err(fault) => Err(front_failure(files, fault)),
    }
}

// What a plan makes of the tables of these files.
fn made<'a>(
    rt: &(impl Files + Input + Threads + Sync),
    alloc: Global,
    options: &TextOptions,
    tables: Vec<NamedFile<'a>>,
    files: &[&'a str],
    call: PlanCall,
    explain: bool,
) -> Result<Text, Failure<'a>> {
    match read_tables(rt, alloc, tables) {
        Ok(texts) if explain => explained(rt, alloc, options, files, texts, call),
        Ok(texts) => text_or_failure(files, plan_text(rt, alloc, texts, call, options)),
        Err(failure) => Err(failure),
    }
}

/// The text of what a plan makes of tables, or of its nodes.
pub(crate) fn planned<'a>(
    rt: &(impl Files + Input + Threads + Sync),
    alloc: Global,
    options: &TextOptions,
    matches: &ArgMatches<'a>,
) -> Result<Text, Failure<'a>> {
    let plan = needed(matches, "PLAN")?;
    let tables = named_files(alloc, matches)?;
    check_inputs(plan, &tables)?;
    let files = names_of_files(alloc, &tables)?;
    let call = read_plan(rt, alloc, plan)?;
    let explain = matches.get_flag("explain");
    made(rt, alloc, options, tables, &files, call, explain)
}
