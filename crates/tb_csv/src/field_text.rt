//! The texts of fields.
ghost use Rattle.std.specs.Prelude.{◌≡◌, ◌++◌, ℕ, Some, OnOk};
ghost use Rattle.std.specs.Fmt.{signed_decimal};
ghost use Rattle.csv.specs.Writing.{escaped, needs_quotes, quoted};
ghost use Rattle.tb_value.specs.See.{lent_value};
ghost use Rattle.tb_date.specs.Promise.Dates.{number_text};
ghost use Rattle.tb_csv.specs.Promise.Texts.{field_among, field_text, style};
ghost use Rattle.tb_csv.specs.Texts.{kind_by_day, stands_in_numbers};

use itoa::Buffer;
use tb_date::{date_text, dated};
use tb_label::truth_text;
use tb_value::{OutOfMemory, ValueRef};

// Whether a field of these bytes stands in quotes.
fn needs_quotes(separator: u8, field: &[u8]) -> bool
    ensures { result ≡ needs_quotes (style separator) field.now }
{
    field.iter().any(|byte| *byte == separator || *byte == b'"' || *byte == b'\r' || *byte == b'\n')
}

// Appends the bytes, with each quote among them twice.
fn push_escaped(text: &mut Vec<u8>, field: &[u8]) -> Result<(), OutOfMemory>
    ensures { (separator : ℕ)
        → OnOk result (text.new.items ≡ text.old.items ++ escaped (style separator) field.now) }
{
    for byte in field {
        if *byte == b'"' {
            text.push(b'"')?;
        }
        text.push(*byte)?;
    }
    Ok(())
}

fn push_quoted(text: &mut Vec<u8>, field: &[u8]) -> Result<(), OutOfMemory>
    ensures { (separator : ℕ)
        → OnOk result (text.new.items ≡ text.old.items ++ quoted (style separator) field.now) }
{
    text.push(b'"')?;
    push_escaped(text, field)?;
    Ok(text.push(b'"')?)
}

/// Appends a field that is a text of these bytes.
pub(crate) fn push_field(text: &mut Vec<u8>, separator: u8, field: &[u8]) -> Result<(), OutOfMemory>
    ensures { OnOk result
        (text.new.items ≡ text.old.items ++ field_text separator (Some field.now)) }
{
    if field.is_empty() || needs_quotes(separator, field) {
        push_quoted(text, field)
    } else {
        Ok(text.extend_from_slice(field)?)
    }
}

// Whether a byte may stand in the digits of a number.
fn stands_in_numbers(byte: u8) -> bool
    ensures { result ≡ stands_in_numbers byte }
{
    byte == b'-' || (b'0' <= byte && byte <= b'9')
}

// Appends the field of a number by its digits, which need no quotes unless they may have the separator among them.
fn push_digits(text: &mut Vec<u8>, separator: u8, number: i128) -> Result<(), OutOfMemory>
    ensures { OnOk result
        (text.new.items ≡ text.old.items ++ field_text separator (Some (signed_decimal number))) }
{
    let mut buffer = Buffer::new();
    let digits = buffer.format(number).as_bytes();
    if stands_in_numbers(separator) {
        return push_field(text, separator, digits);
    }
    Ok(text.extend_from_slice(digits)?)
}

// Appends the field of a number, which may be a day.
fn push_number(
    text: &mut Vec<u8>,
    separator: u8,
    is_day: bool,
    number: i128,
) -> Result<(), OutOfMemory>
    ensures { OnOk result
        (text.new.items
        ≡ text.old.items ++ field_text separator (Some (number_text is_day number))) }
{
    if is_day && let Some(date) = dated(number) {
        return push_field(text, separator, &date_text(date));
    }
    push_digits(text, separator, number)
}

/// Appends the field of a value of a column, of days or not, in a record of so many fields.
#[tactic(auto, using(crate::proofs::Days::day_of))]
pub(crate) fn push_value(
    text: &mut Vec<u8>,
    separator: u8,
    width: usize,
    is_day: bool,
    value: ValueRef<'_>,
) -> Result<(), OutOfMemory>
    ensures { OnOk result
        (text.new.items
        ≡ text.old.items
        ++ field_text separator (field_among width (kind_by_day is_day) (lent_value value.entry))) }
{
    match value {
        ValueRef::Boolean(b) => push_field(text, separator, truth_text(b).as_bytes()),
        ValueRef::Int(number) => push_number(text, separator, is_day, number),
        ValueRef::String(s) => push_field(text, separator, s),
        ValueRef::Null | ValueRef::Binary(_) | ValueRef::List(_) | ValueRef::Struct(_) => {
            if width == 1 {
                push_field(text, separator, b"")
            } else {
                Ok(())
            }
        }
    }
}
