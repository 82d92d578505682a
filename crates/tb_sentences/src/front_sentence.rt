//! Sentences on why the texts of files have no answer.

use crate::sentences::{CsvSentence, RefusalSentence, Speech, side_word, type_word};
use std::fmt;
use tb_csv::{CsvFault, FieldType};
use tb_front::{Comparison, FrontFault, NodeTitle, PlanPart, StepCause};
use tb_value::{MAX_ROWS, PlSmallStr};
use tb_words::shown;

/// The name of a file, as sentences have it.
pub(crate) fn title(file: &str) -> &str {
    if file == "-" { "standard input" } else { file }
}

// The keys of a join, each pair with its sign.
fn write_keys<W: fmt::Write>(
    left_on: &[PlSmallStr],
    right_on: &[PlSmallStr],
    f: &mut fmt::Formatter<W>,
) -> fmt::Result {
    let mut later = false;
    for (left, right) in left_on.iter().zip(right_on) {
        f.write_str(if later { ", " } else { " by " })?;
        write!(
            f,
            "\"{}\"=\"{}\"",
            shown(left.as_str()),
            shown(right.as_str())
        )?;
        later = true;
    }
    Ok(())
}

/// A node of a plan.
#[derive(Drop)]
pub struct TitleWords<'a>(pub &'a NodeTitle);

impl fmt::Display for TitleWords<'_> {
    fn fmt<W: fmt::Write>(&self, f: &mut fmt::Formatter<W>) -> fmt::Result {
        match self.0 {
            NodeTitle::Table(name) => write!(f, "table \"{}\"", shown(name.as_str())),
            NodeTitle::Filter(name) => write!(f, "filter by \"{}\"", shown(name.as_str())),
            NodeTitle::Join { left_on, right_on } => {
                f.write_str("join")?;
                write_keys(left_on.as_slice(), right_on.as_slice(), f)
            }
            NodeTitle::Pivot => f.write_str("pivot"),
        }
    }
}

fn part_words(part: PlanPart) -> &'static str {
    match part {
        PlanPart::Json => "it is no text in JSON",
        PlanPart::Members => "it is no object whose members are root, pivot and push alone",
        PlanPart::Root => "its member root is wanting, or is no tree",
        PlanPart::Pivot => "its member pivot asks for no pivot",
        PlanPart::Push => "its member push is neither true nor false",
    }
}

fn write_step_cause<W: fmt::Write>(cause: &StepCause, f: &mut fmt::Formatter<W>) -> fmt::Result {
    match cause {
        StepCause::NotJson => f.write_str("it is no text in JSON"),
        StepCause::NoStep => f.write_str(
            "it is neither {\"insert\":SIDE,\"row\":{..}} nor {\"remove\":SIDE,\"id\":NUMBER}, where SIDE is \"left\" or \"right\"",
        ),
        StepCause::UnknownColumn(name) => {
            write!(f, "no column is called \"{}\"", shown(name.as_str()))
        }
        StepCause::NoField(name) => {
            write!(
                f,
                "the row has no field for column \"{}\"",
                shown(name.as_str())
            )
        }
        StepCause::NotOfType(name, expected) => write!(
            f,
            "the field of column \"{}\" is no {}",
            shown(name.as_str()),
            type_word(*expected)
        ),
        StepCause::Full => write!(f, "the table ever had {MAX_ROWS} rows and can have no more"),
        StepCause::NoRow(side, id) => {
            write!(
                f,
                "no row of the {} table has the id {id}",
                side_word(*side)
            )
        }
    }
}

// A sentence on decimal numbers, which are texts.
fn write_decimals<W: fmt::Write>(
    comparison: Comparison,
    name: &PlSmallStr,
    f: &mut fmt::Formatter<W>,
) -> fmt::Result {
    let uses = match comparison {
        Comparison::LeastOrGreatest => "--agg min and max don't compare",
        Comparison::Order => "--sort-columns doesn't order",
        Comparison::Rows => "--sort doesn't order",
    };
    write!(
        f,
        "{uses} the decimal numbers of column \"{}\": --types NAME=str takes them as texts",
        shown(name.as_str())
    )
}

fn write_key_types<W: fmt::Write>(
    left: (&PlSmallStr, FieldType),
    right: (&PlSmallStr, FieldType),
    f: &mut fmt::Formatter<W>,
) -> fmt::Result {
    write!(
        f,
        "the keys \"{}\" ({}) and \"{}\" ({}) are of different types: give --types for both",
        shown(left.0.as_str()),
        type_word(left.1),
        shown(right.0.as_str()),
        type_word(right.1)
    )
}

fn write_no_table<W: fmt::Write>(
    file: &str,
    fault: &CsvFault,
    line: Option<u64>,
    f: &mut fmt::Formatter<W>,
) -> fmt::Result {
    write!(f, "{}: ", shown(title(file)))?;
    if let Some(line) = line {
        write!(f, "line {line}: ")?;
    }
    write!(f, "{}", CsvSentence(fault))
}

/// Why the texts of files have no answer.
#[derive(Drop)]
pub(crate) struct FrontSentence<'a> {
    pub(crate) fault: &'a FrontFault,
    /// The file that the fault is about, if it is about one.
    pub(crate) file: &'a str,
}

impl FrontSentence<'_> {
    // A sentence on a plan or on steps.
    fn write_asked<W: fmt::Write>(&self, f: &mut fmt::Formatter<W>) -> fmt::Result {
        match self.fault {
            FrontFault::NoPlan(part) => {
                write!(
                    f,
                    "{}: no plan: {}",
                    shown(title(self.file)),
                    part_words(*part)
                )
            }
            FrontFault::RepeatedTable(name) => {
                write!(f, "two tables are called \"{}\"", shown(name.as_str()))
            }
            FrontFault::UnknownTable(name) => write!(
                f,
                "the plan asks for a table \"{}\", and no NAME=FILE gives it",
                shown(name.as_str())
            ),
            FrontFault::AtNode(node, error) => write!(
                f,
                "the plan's {}: {}",
                TitleWords(node),
                RefusalSentence(error, Speech::Members)
            ),
            FrontFault::TestType(node) => write!(
                f,
                "the plan's {}: the column is not of the type of the value",
                TitleWords(node)
            ),
            FrontFault::Step { line, cause } => {
                write!(f, "{}: line {line}: ", shown(title(self.file)))?;
                write_step_cause(cause, f)
            }
            _ => f.write_str("memory is wanting"),
        }
    }
}

impl fmt::Display for FrontSentence<'_> {
    fn fmt<W: fmt::Write>(&self, f: &mut fmt::Formatter<W>) -> fmt::Result {
        match self.fault {
            FrontFault::NoTable {
                place: _,
                fault,
                line,
            } => write_no_table(self.file, fault, *line, f),
            FrontFault::UnknownType(name) => write!(
                f,
                "--types names \"{}\", and no column is called so",
                shown(name.as_str())
            ),
            FrontFault::KeyTypes {
                left,
                left_type,
                right,
                right_type,
            } => write_key_types((left, *left_type), (right, *right_type), f),
            FrontFault::Decimals(comparison, name) => write_decimals(*comparison, name, f),
            FrontFault::Refused(error) => {
                write!(f, "{}", RefusalSentence(error, Speech::Options))
            }
            FrontFault::NoText(fault) => {
                write!(f, "the answer is not written: {}", CsvSentence(fault))
            }
            _ => self.write_asked(f),
        }
    }
}
