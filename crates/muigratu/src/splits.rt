//! The command that splits a table that lies in a file into files of a folder.

use crate::files::{read_text, write_failure, write_file};
use clap::ArgMatches;
use std::alloc::Global;
use std::fs;
use std::io::Input;
use std::rt::Files;
use std::thread::Threads;
use tb_asked::{csv_options, split_call};
use tb_sentences::{Failure, front_failure};
use tb_split_front::split_text;
use tb_text::Text;
use tb_value::OutOfMemory;
use tb_words::needed;

// The name of the file of a part, whose number has as many digits as the last one has.
fn part_name(alloc: Global, folder: &str, part: usize, last: usize) -> Result<String, OutOfMemory> {
    let width = format!(in alloc; "{last}")?.len();
    let number = format!(in alloc; "{part}")?;
    let mut name = format!(in alloc; "{folder}/part-")?;
    for _ in number.len()..width {
        name.push('0')?;
    }
    write!(name, "{number}.csv")?;
    Ok(name)
}

// Writes each text to the file of its part, after the folder is made, unless it is there.
fn write_parts<'a>(
    rt: &impl Files,
    alloc: Global,
    folder: &'a str,
    texts: &[Text],
) -> Result<(), Failure<'a>> {
    if let Err(error) = fs::create_dir_all(rt, folder) {
        return Err(write_failure(folder, error));
    }
    let last = texts.len().saturating_sub(1);
    for (part, text) in texts.iter().enumerate() {
        let name = part_name(alloc, folder, part, last)?;
        if let Err(error) = write_file(rt, alloc, &name, text) {
            return Err(write_failure(folder, error));
        }
    }
    Ok(())
}

// The texts of the parts.
fn parts<'a>(
    rt: &(impl Files + Input + Threads + Sync),
    alloc: Global,
    matches: &ArgMatches<'a>,
) -> Result<Vec<Text>, Failure<'a>> {
    let file = needed(matches, "TABLE")?;
    let options = csv_options(alloc, matches)?;
    let call = split_call(alloc, matches)?;
    let text = read_text(rt, alloc, file)?;
    match split_text(rt, alloc, text, &call, &options) {
        Ok(texts) => Ok(texts),
        Err(fault) => Err(front_failure(&[file], fault)),
    }
}

/// Writes the parts of a table: all their texts are made before the first one is written.
pub(crate) fn split_table<'a>(
    rt: &(impl Files + Input + Threads + Sync),
    alloc: Global,
    matches: &ArgMatches<'a>,
) -> Result<(), Failure<'a>> {
    let folder = needed(matches, "output")?;
    let texts = parts(rt, alloc, matches)?;
    write_parts(rt, alloc, folder, &texts)
}
