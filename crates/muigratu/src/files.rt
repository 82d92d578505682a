//! Reading whole texts, and writing them.

use std::alloc::Global;
use std::fs::{self, File, OpenFile, OpenOptions, Permissions};
use std::io::{self, ErrorKind, Input, Read, Write};
use std::rt::Files;
use tb_sentences::Failure;
use tb_text::Text;
use tb_value::MAX_INPUT;

// How many names a new file may be given, of which others may be taken.
const NAMES: u32 = 1_000;

fn read_failure<'a>(file: &'a str, error: io::Error) -> Failure<'a> {
    if error.kind() == ErrorKind::OutOfMemory {
        Failure::OutOfMemory
    } else {
        Failure::Reading(file, error)
    }
}

// The bytes of a file, or its first ones, one more than are asked.
fn read_whole<'a, R: Read + Drop>(
    alloc: Global,
    file: &'a str,
    reader: R,
    most: u64,
) -> Result<Vec<u8>, Failure<'a>> {
    let mut bytes = Vec::new(alloc);
    let mut front = reader.take(most.saturating_add(1));
    match front.read_to_end(&mut bytes) {
        Ok(_) => Ok(bytes),
        Err(error) => Err(read_failure(file, error)),
    }
}

fn read_up_to<'a>(
    rt: &(impl Files + Input),
    alloc: Global,
    file: &'a str,
    most: u64,
) -> Result<Vec<u8>, Failure<'a>> {
    if file == "-" {
        return read_whole(alloc, file, rt.reader(), most);
    }
    match fs::open(rt, file) {
        Ok(opened) => read_whole(alloc, file, opened, most),
        Err(error) => Err(read_failure(file, error)),
    }
}

/// The bytes of the file of this name, or of standard input for `-`. Memory alone limits them.
pub(crate) fn read_text<'a>(
    rt: &(impl Files + Input),
    alloc: Global,
    file: &'a str,
) -> Result<Vec<u8>, Failure<'a>> {
    read_up_to(rt, alloc, file, u64::MAX)
}

/// The same of a text in JSON, which has the limit that the JSON program's requests have.
pub(crate) fn read_json<'a>(
    rt: &(impl Files + Input),
    alloc: Global,
    file: &'a str,
) -> Result<Vec<u8>, Failure<'a>> {
    let bytes = read_up_to(rt, alloc, file, MAX_INPUT as u64)?;
    if bytes.len() > MAX_INPUT {
        return Err(Failure::TooLong(file));
    }
    Ok(bytes)
}

// A file that nothing had the name of, open for writing.
#[derive(Drop)]
struct NewFile<F: Drop> {
    name: String,
    opened: F,
}

fn open_beside<R: Files>(rt: &R, alloc: Global, file: &str) -> io::Result<NewFile<R::File>> {
    for number in 0..NAMES {
        let name = format!(in alloc; "{file}.{number}.new")?;
        match File::create_new(rt, name.as_str()) {
            Ok(opened) => return Ok(NewFile { name, opened }),
            Err(error) if error.kind() == ErrorKind::AlreadyExists => {}
            Err(error) => return Err(error),
        }
    }
    Err(io::Error::from(ErrorKind::AlreadyExists))
}

fn write_pieces<W: Write>(writer: &mut W, text: &Text) -> io::Result<()> {
    for piece in text.pieces() {
        writer.write_all(piece)?;
    }
    Ok(())
}

// Writes the text, down to the disk.
fn fill<F: Write + OpenFile>(
    opened: &mut F,
    permissions: Option<Permissions>,
    text: &Text,
) -> io::Result<()> {
    if let Some(permissions) = permissions {
        opened.set_permissions(permissions)?;
    }
    write_pieces(opened, text)?;
    opened.sync_all()
}

// Writes a new file beside the file and puts it in its place, so that the file is never half written.
fn replace(
    rt: &impl Files,
    alloc: Global,
    file: &str,
    permissions: Option<Permissions>,
    text: &Text,
) -> io::Result<()> {
    let mut beside = open_beside(rt, alloc, file)?;
    let outcome = match fill(&mut beside.opened, permissions, text) {
        Ok(()) => rt.rename(beside.name.as_str(), file),
        Err(error) => Err(error),
    };
    if outcome.is_err() {
        // What failed first is told.
        let _ = rt.remove_file(beside.name.as_str());
    }
    outcome
}

/// Writes the text to the file of this name, which holds what it held until the text is whole.
pub(crate) fn write_file(
    rt: &impl Files,
    alloc: Global,
    file: &str,
    text: &Text,
) -> io::Result<()> {
    match fs::symlink_metadata(rt, file) {
        Ok(old) if old.is_file() => {
            // A file that may not be written stays as it is.
            let _ = OpenOptions::new().write(true).open(rt, file)?;
            replace(rt, alloc, file, Some(old.permissions()), text)
        }
        Err(error) if error.kind() == ErrorKind::NotFound => replace(rt, alloc, file, None, text),
        // A link, a pipe or a device stays what it is.
        _ => write_pieces(&mut File::create(rt, file)?, text),
    }
}

/// The failure by an error of what is written to this file or folder.
pub(crate) fn write_failure<'a>(file: &'a str, error: io::Error) -> Failure<'a> {
    if error.kind() == ErrorKind::OutOfMemory {
        Failure::OutOfMemory
    } else {
        Failure::Writing(file, error)
    }
}

fn print_pieces(rt: &impl Print, text: &Text) -> io::Result<()> {
    for piece in text.pieces() {
        rt.write_all(piece)?;
    }
    Ok(())
}

/// Writes the text to the file of this name, or to standard output.
pub(crate) fn write_text<'a>(
    rt: &(impl Files + Print),
    alloc: Global,
    output: Option<&'a str>,
    text: &Text,
) -> Result<(), Failure<'a>> {
    let file = output.unwrap_or("-");
    let outcome = if file == "-" {
        print_pieces(rt, text)
    } else {
        write_file(rt, alloc, file, text)
    };
    match outcome {
        Ok(()) => Ok(()),
        Err(error) => Err(write_failure(file, error)),
    }
}
