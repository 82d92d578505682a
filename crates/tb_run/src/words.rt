//! The words that the program is called with.
ghost use Rattle.std.specs.Prelude.{◌≡◌};
ghost use Rattle.tb_run.specs.Promise.Words.{begins_plainly, command, form, in_bounds, sample_rows};

use tb_value::PlSmallStr;

// The most rows of a sample.
const MOST_ROWS: u32 = 2_000_000;

/// What is done with a request that is read.
#[derive(Clone, Copy, Debug, PartialEq, Eq)]
pub enum Command {
    Join,
    Unpivot,
    Dummies,
    Pivot,
    Plan,
    Delta,
    Group,
}

/// What the words ask for.
#[derive(Clone, Copy, Debug, PartialEq, Eq)]
pub enum Form {
    Reads(Command),
    /// A sample of so many rows.
    Sample(u32),
    Unknown,
}

pub(crate) fn form_of(words: &[PlSmallStr]) -> Form
    ensures { result ≡ form words.now }
{
    match words {
        [word] => match command_of(word.as_str()) {
            Some(command) => Form::Reads(command),
            None => Form::Unknown,
        },
        [word, rows] if word.as_str() == "sample" => match sample_rows(rows.as_str()) {
            Some(rows) => Form::Sample(rows),
            None => Form::Unknown,
        },
        _ => Form::Unknown,
    }
}

// Whether the first byte is a digit and not 0.
fn begins_plainly(word: &str) -> bool
    ensures { result ≡ begins_plainly word.now }
{
    match word.as_bytes() {
        [first, ..] => b'1' <= *first && *first <= b'9',
        [] => false,
    }
}

fn in_bounds(rows: u32) -> Option<u32>
    ensures { result ≡ in_bounds rows }
{
    if 1 <= rows && rows <= MOST_ROWS {
        Some(rows)
    } else {
        None
    }
}

fn sample_rows(word: &str) -> Option<u32>
    ensures { result ≡ sample_rows word.now }
{
    if !begins_plainly(word) {
        return None;
    }
    match word.parse::<u32>() {
        Ok(rows) => in_bounds(rows),
        Err(_) => None,
    }
}

fn command_of(word: &str) -> Option<Command>
    ensures { result ≡ command word.now }
{
    match word {
        "join" => Some(Command::Join),
        "unpivot" => Some(Command::Unpivot),
        "dummies" => Some(Command::Dummies),
        "pivot" => Some(Command::Pivot),
        "plan" => Some(Command::Plan),
        "delta" => Some(Command::Delta),
        "group" => Some(Command::Group),
        _ => None,
    }
}
