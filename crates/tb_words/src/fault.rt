//! Why words ask nothing that can be done: a sentence and a status.
ghost use Rattle.std.specs.Prelude.{◌≡◌};
ghost use Rattle.tb_words.specs.Words.{word_status};

use crate::visible::shown;
use std::alloc::{AllocError, AllocFailed};
use std::fmt;
use tb_value::OutOfMemory;

/// What a word chooses by a table of words.
#[derive(Clone, Copy)]
pub enum Choice {
    How,
    Validation,
    Coalesce,
    Order,
    Aggregate,
    Form,
    Command,
}

impl Choice {
    /// The option that takes the word, or the place of it.
    pub fn option(self) -> &'static str {
        match self {
            Choice::How => "--how",
            Choice::Validation => "--validate",
            Choice::Coalesce => "--coalesce",
            Choice::Order => "--order",
            Choice::Aggregate => "--agg",
            Choice::Form => "--as",
            Choice::Command => "COMMAND",
        }
    }
}

/// Why words ask nothing that can be done.
#[derive(Clone, Copy)]
pub enum WordFault<'a> {
    /// This name is given a type twice.
    TypedTwice(&'a str),
    /// Two tables of a plan have this name.
    NamedTwice(&'a str),
    /// The word is no file under a name.
    NoNamedFile(&'a str),
    /// The table of the choice has no such word.
    NoWord(Choice, &'a str),
    /// A word of --on is empty.
    EmptyOn,
    /// This word is wanting.
    Wanting(&'static str),
    /// The word is no type of a column.
    NoType(&'a str),
    /// The word is no slice.
    NoSlice(&'a str),
    /// The name is that of no left key.
    NoKey(&'a str),
    /// The word is no separator.
    NoSeparator(&'a str),
    /// The word asks for no column that is made.
    NoAgg(&'a str),
    /// The word is no width.
    NoWidth(&'a str),
    /// The word is no number of parts.
    NoParts(&'a str),
    /// The word is no number of threads.
    NoThreads(&'a str),
    /// Two files are to be read from standard input.
    OneInput,
    /// A word is not UTF-8.
    NotUtf8,
    /// Want of memory, which may come at any time.
    OutOfMemory,
}

impl WordFault<'_> {
    /// The exit status.
    pub fn status(&self) -> u8
        ensures { result ≡ word_status self.now }
    {
        match self {
            WordFault::OutOfMemory => 6,
            _ => 2,
        }
    }
}

impl From<OutOfMemory> for WordFault<'_> {
    ghost use Rattle.std.specs.Prelude.{◌≡◌};
    ghost use Rattle.tb_words.specs.declared.fault.WordFault.TheVariants.{OutOfMemory};

    ghost from_gives = { λ _ e. e ≡ OutOfMemory };

    fn from(_error: OutOfMemory) -> Self {
        WordFault::OutOfMemory
    }
}

impl From<AllocError> for WordFault<'_> {
    ghost use Rattle.std.specs.Prelude.{◌≡◌};
    ghost use Rattle.tb_words.specs.declared.fault.WordFault.TheVariants.{OutOfMemory};

    ghost from_gives = { λ _ e. e ≡ OutOfMemory };

    fn from(_error: AllocError) -> Self {
        WordFault::OutOfMemory
    }
}

impl<T: Drop> From<AllocFailed<T>> for WordFault<'_> {
    ghost use Rattle.std.specs.Prelude.{◌≡◌};
    ghost use Rattle.tb_words.specs.declared.fault.WordFault.TheVariants.{OutOfMemory};

    ghost from_gives = { λ _ e. e ≡ OutOfMemory };

    fn from(_error: AllocFailed<T>) -> Self {
        WordFault::OutOfMemory
    }
}

// What an option takes, where it doesn't take the word.
fn write_refused<W: fmt::Write>(takes: &str, word: &str, f: &mut fmt::Formatter<W>) -> fmt::Result {
    write!(f, "{takes}, and not \"{}\"", shown(word))
}

impl fmt::Display for WordFault<'_> {
    fn fmt<W: fmt::Write>(&self, f: &mut fmt::Formatter<W>) -> fmt::Result {
        match self {
            WordFault::TypedTwice(name) => write!(f, "--types names \"{}\" twice", shown(name)),
            WordFault::NamedTwice(name) => {
                write!(f, "two tables are called \"{}\"", shown(name))
            }
            WordFault::NoWord(choice, word) => {
                write!(f, "{} doesn't take \"{}\"", choice.option(), shown(word))
            }
            WordFault::Wanting(word) => write!(f, "{word} is wanting"),
            WordFault::NoNamedFile(word) => write_refused("a table is NAME=FILE", word, f),
            WordFault::NoType(word) => write_refused("--types takes NAME=TYPE", word, f),
            WordFault::NoSlice(word) => {
                write_refused("--slice takes OFFSET,LENGTH, two whole numbers", word, f)
            }
            WordFault::NoKey(word) => {
                write_refused("--join-nulls takes a left key of --on", word, f)
            }
            WordFault::NoSeparator(word) => {
                write_refused("--separator takes one ASCII character", word, f)
            }
            WordFault::NoAgg(word) => write_refused(
                "--agg takes NEW=KIND:NAME, as total=sum:cents, where KIND is first, last, count, sum, min or max",
                word,
                f,
            ),
            WordFault::NoWidth(word) => {
                write_refused("--width takes a whole number from 1 on", word, f)
            }
            WordFault::NoParts(word) => {
                write_refused("--parts takes a whole number from 1 to 65536", word, f)
            }
            WordFault::NoThreads(word) => {
                write_refused("--threads takes a whole number from 1 to 1024", word, f)
            }
            WordFault::EmptyOn => f.write_str("--on takes names of columns, and not an empty word"),
            WordFault::OneInput => f.write_str("standard input can be one file only"),
            WordFault::NotUtf8 => f.write_str("a word is not UTF-8"),
            WordFault::OutOfMemory => f.write_str("memory is wanting"),
        }
    }
}
