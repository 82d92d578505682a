//! A sentence on why bytes are no request.

use std::fmt;
use tb_request::{Form, MAX_RUN_VALUES, Word};
use tb_value::IsSorted;
use tb_why::{Expected, Fault, Place, Step};
use tb_words::shown;

fn words(word: Word) -> &'static str {
    match word {
        Word::How => "\"inner\", \"left\", \"right\", \"full\", \"semi\" or \"anti\"",
        Word::Validation => "\"m:m\", \"m:1\", \"1:m\" or \"1:1\"",
        Word::Coalesce => "\"specific\", \"coalesce\" or \"keep\"",
        Word::Order => "\"none\", \"left\", \"right\", \"left_right\" or \"right_left\"",
        Word::Sorted => "\"ascending\" or \"descending\"",
        Word::Aggregate => "\"first\", \"last\", \"sum\", \"min\", \"max\" or \"count\"",
        Word::Side => "\"left\" or \"right\"",
        Word::Test => "\"is_null\" or \"is_not_null\"",
    }
}

fn form_words(form: Form) -> &'static str {
    match form {
        Form::Object => "an object",
        Form::Values => "a list",
        Form::Chunks => "a list of lists",
        Form::Runs => "a list of runs, each [value, count]",
        Form::Text => "a text",
        Form::Texts => "a list of texts",
        Form::Truth => "true or false",
        Form::Nulls => "true, false or a list of these",
        Form::Type => "a type, such as \"i64\"",
        Form::Format => "1 or 2",
        Form::Slice => "[offset, length], two whole numbers, the second not negative",
        Form::Count => "a whole number from 0 to 4294967295",
        Form::Workers => "a whole number from 1 to 1024",
        Form::Divisor => "a whole number from 1 to 4294967295",
        Form::Test => "\"is_null\", \"is_not_null\", {\"eq\": value} or {\"less\": value}",
        Form::Compared => "true, false, a text or a whole number of 64 bits",
        Form::Word(word) => words(word),
    }
}

fn write_expected<W: fmt::Write>(expected: Expected, f: &mut fmt::Formatter<W>) -> fmt::Result {
    match expected {
        Expected::Json => f.write_str("the text of one JSON value, in UTF-8"),
        Expected::Request => f.write_str("a request"),
        Expected::Form(form) => f.write_str(form_words(form)),
        Expected::Wanting(form) => write!(f, "{}, and there is no such member", form_words(form)),
        Expected::NoMember => f.write_str("no member of this name"),
        Expected::Null => f.write_str("null"),
        Expected::Truth => f.write_str("true or false"),
        Expected::Whole(least, most) => write!(f, "a whole number from {least} to {most}"),
        Expected::Digits => f.write_str("a text of the digits of a whole number of 128 bits"),
        Expected::Text => f.write_str("a text"),
        Expected::Hexadecimal => f.write_str(
            "a text of lower-case hexadecimal digits, two for each byte",
        ),
        Expected::List => f.write_str("a list of values of the type"),
        Expected::Row => f.write_str("a list of one value of each field"),
        Expected::Run => f.write_str("a run, [value, count]"),
        Expected::Times => write!(f, "a whole number from 1 to {}", u64::MAX),
        Expected::Once => f.write_str("1, the only count of a list or of a row of fields"),
        Expected::FewRunValues => {
            write!(
                f,
                "at most {MAX_RUN_VALUES} values in all runs up to this one"
            )
        }
        Expected::FewValues => f.write_str("at most 4294967294 values"),
        Expected::Height(height) => write!(f, "as many values as the first column has, {height}"),
        Expected::OtherName => f.write_str("a name that no column before it has"),
        Expected::Ordered(IsSorted::Descending) => f.write_str("values that descend"),
        Expected::Ordered(_) => f.write_str("values that ascend"),
    }
}

// The steps from the whole to a place in it.
fn write_path<W: fmt::Write>(steps: &[Step], f: &mut fmt::Formatter<W>) -> fmt::Result {
    let mut first = true;
    for step in steps.iter().rev() {
        match step {
            Step::Member(name) if first => write!(f, "{}", shown(name.as_str()))?,
            Step::Member(name) => write!(f, ".{}", shown(name.as_str()))?,
            Step::Index(index) => write!(f, "[{index}]")?,
        }
        first = false;
    }
    if first {
        f.write_str("the whole")
    } else {
        Ok(())
    }
}

fn write_place<W: fmt::Write>(place: &Place, f: &mut fmt::Formatter<W>) -> fmt::Result {
    match place {
        Place::Text { line, column } => write!(f, "line {line}, column {column}"),
        Place::Path(steps) => write_path(steps, f),
    }
}

/// The reason, the place, and what is expected there.
#[derive(Drop)]
pub struct FaultSentence<'a>(pub &'a Fault);

impl fmt::Display for FaultSentence<'_> {
    fn fmt<W: fmt::Write>(&self, f: &mut fmt::Formatter<W>) -> fmt::Result {
        write!(f, "{} at ", self.0.reason.word())?;
        write_place(&self.0.place, f)?;
        f.write_str(": expected ")?;
        write_expected(self.0.expected, f)
    }
}
