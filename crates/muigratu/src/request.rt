//! The command that makes an answer of the JSON program a table of a request.

use crate::files::{read_json, write_text};
use clap::ArgMatches;
use serde_json::{Map, Value};
use std::alloc::Global;
use std::io::Input;
use std::rt::Files;
use tb_request::Format;
use tb_sentences::Failure;
use tb_text::Text;
use tb_value::OutOfMemory;
use tb_words::needed;

// A run: a value and its count.
fn run_of(alloc: Global, value: Value, times: u64) -> Result<Value, OutOfMemory> {
    let mut parts = Vec::with_capacity(alloc, 2)?;
    parts.push(value)?;
    parts.push(Value::from(times))?;
    Ok(Value::Array(parts))
}

// The runs of values: equal ones that stand side by side become one, unless each stands once.
fn runs_of(alloc: Global, values: Vec<Value>, once: bool) -> Result<Vec<Value>, OutOfMemory> {
    let mut runs = Vec::new(alloc);
    let mut values = values.into_iter();
    let Some(mut value) = values.next() else {
        return Ok(runs);
    };
    let mut times = 1u64;
    for next in values {
        if next == value && !once {
            times = times.saturating_add(1);
        } else {
            runs.push(run_of(alloc, value, times)?)?;
            value = next;
            times = 1;
        }
    }
    runs.push(run_of(alloc, value, times)?)?;
    Ok(runs)
}

// Whether each value of a column stands once in a run: lists and rows of fields do.
fn stands_once(column: &Map<String, Value>) -> bool {
    match column.get("type") {
        Some(dtype) => dtype.get("list").is_some() || dtype.get("struct").is_some(),
        None => false,
    }
}

// A column with its values as the only chunk, or as runs, or None where it is no column of an answer.
fn written_column(
    alloc: Global,
    format: Format,
    column: Value,
) -> Result<Option<Value>, OutOfMemory> {
    let Value::Object(mut members) = column else {
        return Ok(None);
    };
    let Some(Value::Array(values)) = members.remove("values") else {
        return Ok(None);
    };
    let (name, items) = match format {
        Format::Chunks => {
            let mut chunks = Vec::with_capacity(alloc, 1)?;
            chunks.push(Value::Array(values))?;
            ("chunks", chunks)
        }
        Format::Runs => ("runs", runs_of(alloc, values, stands_once(&members))?),
    };
    drop(members.insert(String::from_str(alloc, name)?, Value::Array(items))?);
    Ok(Some(Value::Object(members)))
}

fn written_columns(
    alloc: Global,
    format: Format,
    columns: Vec<Value>,
) -> Result<Option<Vec<Value>>, OutOfMemory> {
    let mut written = Vec::with_capacity(alloc, columns.len())?;
    for column in columns {
        let Some(column) = written_column(alloc, format, column)? else {
            return Ok(None);
        };
        written.push(column)?;
    }
    Ok(Some(written))
}

// The table of a request that an answer is, or None where it is no answer.
fn written_table(
    alloc: Global,
    format: Format,
    answer: Value,
) -> Result<Option<Value>, OutOfMemory> {
    let Value::Object(mut members) = answer else {
        return Ok(None);
    };
    let Some(Value::Array(columns)) = members.remove("columns") else {
        return Ok(None);
    };
    let Some(columns) = written_columns(alloc, format, columns)? else {
        return Ok(None);
    };
    let mut table = Map::new(alloc);
    drop(table.insert(String::from_str(alloc, "columns")?, Value::Array(columns))?);
    Ok(Some(Value::Object(table)))
}

fn answer_in<'a>(alloc: Global, file: &'a str, text: &[u8]) -> Result<Value, Failure<'a>> {
    match Value::from_slice(alloc, text) {
        Ok(answer) => Ok(answer),
        Err(error) if error.is_memory() => Err(Failure::OutOfMemory),
        Err(_) => Err(Failure::NoAnswer(file)),
    }
}

fn table_text<'a>(
    alloc: Global,
    file: &'a str,
    format: Format,
    text: &[u8],
) -> Result<String, Failure<'a>> {
    let answer = answer_in(alloc, file, text)?;
    let Some(table) = written_table(alloc, format, answer)? else {
        return Err(Failure::NoAnswer(file));
    };
    let mut written = table.to_string(alloc)?;
    written.push('\n')?;
    Ok(written)
}

/// Writes the table of a request that the answer in a file is: with chunks, or with runs where these are asked and its text
/// is shorter so.
pub(crate) fn make_request<'a>(
    rt: &(impl Files + Input + Print),
    alloc: Global,
    matches: &ArgMatches<'a>,
) -> Result<(), Failure<'a>> {
    let file = needed(matches, "ANSWER")?;
    let text = read_json(rt, alloc, file)?;
    let mut written = table_text(alloc, file, Format::Chunks, &text)?;
    if matches.get_flag("runs") {
        // The answer is read again, so that its values stand in memory once.
        let with_runs = table_text(alloc, file, Format::Runs, &text)?;
        if with_runs.len() < written.len() {
            written = with_runs;
        }
    }
    let text = Text::from_string(alloc, written)?;
    write_text(rt, alloc, matches.get_str("output"), &text)
}
