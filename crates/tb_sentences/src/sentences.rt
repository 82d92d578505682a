//! Sentences on why a text is no table, and why an operation refuses.

use std::fmt;
use tb_csv::{CsvFault, FieldType};
use tb_value::{ComputeCause, InvalidCause, PolarsError, Side};
use tb_words::shown;

/// The word of a type, as `--types` takes it.
pub(crate) fn type_word(field_type: FieldType) -> &'static str {
    match field_type {
        FieldType::Boolean => "bool",
        FieldType::Int8 => "i8",
        FieldType::Int16 => "i16",
        FieldType::Int32 => "i32",
        FieldType::Int64 => "i64",
        FieldType::Int128 => "i128",
        FieldType::UInt8 => "u8",
        FieldType::UInt16 => "u16",
        FieldType::UInt32 => "u32",
        FieldType::UInt64 => "u64",
        FieldType::String => "str",
        FieldType::Date => "date",
    }
}

/// The word of a side.
pub(crate) fn side_word(side: Side) -> &'static str {
    match side {
        Side::Left => "left",
        Side::Right => "right",
    }
}

/// Why a text is no table, or a table has no text. Records are counted from 0, which is that of names.
#[derive(Drop)]
pub(crate) struct CsvSentence<'a>(pub(crate) &'a CsvFault);

impl fmt::Display for CsvSentence<'_> {
    fn fmt<W: fmt::Write>(&self, f: &mut fmt::Formatter<W>) -> fmt::Result {
        match self.0 {
            CsvFault::OpenQuote => f.write_str("the quote that opens here is never closed"),
            CsvFault::Empty => f.write_str("there is no record of names"),
            CsvFault::NotUtf8 { record } => write!(f, "record {record} is not UTF-8"),
            CsvFault::RepeatedName(name) => {
                write!(f, "two columns are called \"{}\"", shown(name.as_str()))
            }
            CsvFault::FieldCount {
                record,
                expected,
                found,
            } => write!(
                f,
                "record {record} has {found} fields, and there are {expected} names"
            ),
            CsvFault::TooManyRows => {
                f.write_str("there are too many rows, and at most 4294967294 can be")
            }
            CsvFault::NotOfType {
                record,
                column,
                expected,
            } => write!(
                f,
                "the field of column \"{}\" in record {record} is no {}",
                shown(column.as_str()),
                type_word(*expected)
            ),
            CsvFault::NoText(name) => {
                write!(
                    f,
                    "the values of column \"{}\" have no text",
                    shown(name.as_str())
                )
            }
            CsvFault::OutOfMemory => f.write_str("memory is wanting"),
        }
    }
}

/// How arguments are called: by options of a command, or by members of a plan.
#[derive(Clone, Copy)]
pub(crate) enum Speech {
    Options,
    Members,
}

impl Speech {
    fn word(self, option: &'static str, member: &'static str) -> &'static str {
        match self {
            Speech::Options => option,
            Speech::Members => member,
        }
    }
}

fn invalid_sentence<W: fmt::Write>(
    cause: &InvalidCause,
    speech: Speech,
    f: &mut fmt::Formatter<W>,
) -> fmt::Result {
    match cause {
        InvalidCause::NoKeys => f.write_str("there is no key"),
        InvalidCause::KeyCounts { left, right } => {
            write!(f, "there are {left} left keys and {right} right keys")
        }
        InvalidCause::NullFlags { flags, keys } => {
            write!(f, "there are {flags} flags of absent keys and {keys} keys")
        }
        InvalidCause::KeyKind { place } => {
            write!(
                f,
                "rows can't be joined by the type of key {} of {}",
                place.saturating_add(1),
                speech.word("--on", "left_on")
            )
        }
        InvalidCause::BothNone => f.write_str(speech.word(
            "neither --index nor --values is given",
            "neither index nor values is given",
        )),
        InvalidCause::HeaderType(name) => {
            write!(
                f,
                "the values of column \"{}\" make no names: give --types NAME=str to read them as texts",
                shown(name.as_str())
            )
        }
        InvalidCause::AggType(name) => {
            write!(
                f,
                "{} doesn't take the type of column \"{}\"",
                speech.word("--agg", "agg"),
                shown(name.as_str())
            )
        }
        InvalidCause::NoSupertype(name) => {
            write!(
                f,
                "column \"{}\" has no type in common with those before it",
                shown(name.as_str())
            )
        }
    }
}

fn compute_sentence<W: fmt::Write>(
    cause: &ComputeCause,
    speech: Speech,
    f: &mut fmt::Formatter<W>,
) -> fmt::Result {
    match cause {
        ComputeCause::KeyTypes { place } => write!(
            f,
            "the columns of key {} of {} are of different types: give --types for both",
            place.saturating_add(1),
            speech.word("--on", "left_on and right_on")
        ),
        ComputeCause::Validation(side) => {
            write!(f, "two {} rows have equal keys", side_word(*side))
        }
        ComputeCause::TooManyRows => f.write_str("the answer would have too many rows"),
        ComputeCause::EmptyIndex => f.write_str("no column is left for the rows"),
        ComputeCause::EmptyOn => f.write_str("no column is named whose values become columns"),
        ComputeCause::BraceName(name) => {
            write!(f, "a column is called \"{}\" already", shown(name.as_str()))
        }
        ComputeCause::ManyInGroup => {
            write!(
                f,
                "a cell would have several values, and {} is not given",
                speech.word("--agg", "agg")
            )
        }
        ComputeCause::SumRange(name) => {
            write!(
                f,
                "a sum of column \"{}\" is out of the range of its type",
                shown(name.as_str())
            )
        }
        ComputeCause::EvaluateLength { .. } | ComputeCause::Evaluate(_) => {
            f.write_str("a cell was not made")
        }
    }
}

/// Why an operation refuses its tables or its arguments.
#[derive(Drop)]
pub(crate) struct RefusalSentence<'a>(pub(crate) &'a PolarsError, pub(crate) Speech);

impl fmt::Display for RefusalSentence<'_> {
    fn fmt<W: fmt::Write>(&self, f: &mut fmt::Formatter<W>) -> fmt::Result {
        match self.0 {
            PolarsError::ColumnNotFound(name) => {
                write!(f, "no column is called \"{}\"", shown(name.as_str()))
            }
            PolarsError::InvalidOperation(cause) => invalid_sentence(cause, self.1, f),
            PolarsError::ComputeError(cause) => compute_sentence(cause, self.1, f),
            PolarsError::Duplicate(name) => {
                write!(
                    f,
                    "two columns would be called \"{}\"",
                    shown(name.as_str())
                )
            }
            PolarsError::ShapeMismatch => f.write_str("two lengths differ that must be the same"),
            PolarsError::SchemaMismatch => f.write_str("a column is of another type"),
            PolarsError::OutOfMemory => f.write_str("memory is wanting"),
        }
    }
}
