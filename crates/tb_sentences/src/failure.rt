//! Why there is no answer: a sentence and a status.
ghost use Rattle.std.specs.Prelude.{◌≡◌};
ghost use Rattle.tb_sentences.specs.Statuses.{front_status, status_of};

use crate::front_sentence::{FrontSentence, title};
use std::alloc::{AllocError, AllocFailed};
use std::{fmt, io};
use tb_csv::CsvFault;
use tb_front::{FrontFault, StepCause};
use tb_value::{MAX_INPUT, OutOfMemory};
use tb_words::{WordFault, shown};

/// Why texts of files have no answer.
pub struct FrontFailure<'a> {
    pub fault: FrontFault,
    /// The file that the fault is about, if it is about one.
    pub file: &'a str,
}

// Written by hand, so that what lets a failure go calls this, and has no case for each fault.
impl Drop for FrontFailure<'_> {
    fn drop(self) {
        let FrontFailure { fault, file } = self;
    }
}

/// Why there is no answer.
#[derive(Drop)]
pub enum Failure<'a> {
    /// The words ask nothing that can be done.
    Words(WordFault<'a>),
    /// The texts of files have no answer.
    Front(FrontFailure<'a>),
    /// The text of this file is no answer of the JSON program.
    NoAnswer(&'a str),
    /// This file was not read.
    Reading(&'a str, io::Error),
    /// This file was not written.
    Writing(&'a str, io::Error),
    /// The text of this file has too many bytes.
    TooLong(&'a str),
    /// Want of memory, which may come at any time.
    OutOfMemory,
}

fn front_status(fault: &FrontFault) -> u8
    ensures { result ≡ front_status fault.now }
{
    match fault {
        FrontFault::KeyTypes { .. }
        | FrontFault::Decimals(_, _)
        | FrontFault::Refused(_)
        | FrontFault::NoText(_)
        | FrontFault::AtNode(_, _)
        | FrontFault::TestType(_) => 1,
        FrontFault::UnknownType(_) | FrontFault::RepeatedTable(_) | FrontFault::UnknownTable(_) =>
            2,
        FrontFault::NoTable { fault, .. } => match fault {
            CsvFault::TooManyRows => 6,
            _ => 3,
        },
        FrontFault::NoPlan(_) => 3,
        FrontFault::Step { line: _, cause } => match cause {
            StepCause::Full | StepCause::NoRow(_, _) => 1,
            _ => 3,
        },
        FrontFault::OutOfMemory => 6,
    }
}

impl Failure<'_> {
    /// The exit status.
    pub fn status(&self) -> u8
        ensures { result ≡ status_of self.now }
    {
        match self {
            Failure::Words(fault) => fault.status(),
            Failure::Front(failure) => front_status(&failure.fault),
            Failure::NoAnswer(_) => 3,
            Failure::Reading(_, _) => 4,
            Failure::Writing(_, _) => 5,
            Failure::OutOfMemory => 6,
            Failure::TooLong(_) => 7,
        }
    }
}

impl<'a> From<WordFault<'a>> for Failure<'a> {
    fn from(fault: WordFault<'a>) -> Self {
        Failure::Words(fault)
    }
}

impl From<OutOfMemory> for Failure<'_> {
    fn from(_error: OutOfMemory) -> Self {
        Failure::OutOfMemory
    }
}

impl From<AllocError> for Failure<'_> {
    fn from(_error: AllocError) -> Self {
        Failure::OutOfMemory
    }
}

impl<T: Drop> From<AllocFailed<T>> for Failure<'_> {
    fn from(_error: AllocFailed<T>) -> Self {
        Failure::OutOfMemory
    }
}

fn output_title(file: &str) -> &str {
    if file == "-" { "standard output" } else { file }
}

impl fmt::Display for Failure<'_> {
    fn fmt<W: fmt::Write>(&self, f: &mut fmt::Formatter<W>) -> fmt::Result {
        match self {
            Failure::Words(fault) => write!(f, "{fault}"),
            Failure::Front(FrontFailure { fault, file }) => {
                write!(f, "{}", FrontSentence { fault, file })
            }
            Failure::NoAnswer(file) => {
                write!(f, "{}: no answer of the JSON program", shown(title(file)))
            }
            Failure::Reading(file, error) => write!(f, "{}: {error}", shown(title(file))),
            Failure::Writing(file, error) => write!(f, "{}: {error}", shown(output_title(file))),
            Failure::TooLong(file) => {
                write!(f, "{}: more than {MAX_INPUT} bytes", shown(title(file)))
            }
            Failure::OutOfMemory => f.write_str("memory is wanting"),
        }
    }
}
