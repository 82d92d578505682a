//! Columns of decimal numbers, which are read as texts.
ghost use Rattle.std.specs.Prelude.{◌≡◌, ◌<◌, ◌||◌, IfSome, count_by, length, position};
ghost use Rattle.std.specs.List.{list_all, list_any};
ghost use Rattle.tb_value.specs.Promise.Names.{same_name};
ghost use Rattle.tb_value.specs.See.{lent_value};
ghost use Rattle.tb_chunk.specs.Promise.Col.{values};
ghost use Rattle.tb_frame.specs.NameSets.{has_name};
ghost use Rattle.tb_frame.specs.Promise.Table.{plain_column, table_of};
ghost use Rattle.tb_csv.specs.declared.options.TypeOf.{TypeOf};
ghost use Rattle.tb_front.specs.Promise.Asked.{first_decimals};
ghost use Rattle.tb_front.specs.Promise.Faults.{Settles};
ghost use Rattle.tb_front.specs.Promise.Decimals.{are_digits, has_decimals, is_blank, is_decimal, is_decimal_value, is_digit, is_exponent_mark, is_mantissa, is_point, is_scaled, is_sign, is_told_decimal, is_untyped, without_sign};

use crate::fault::{Comparison, FrontFault};
use std::alloc::Global;
use tb_csv::TypeOf;
use tb_frame::{DataFrame, NameSet};
use tb_store::Column;
use tb_value::{PlSmallStr, ValueRef};

fn is_digit(byte: u8) -> bool
    ensures { result ≡ is_digit byte }
{
    b'0' <= byte && byte <= b'9'
}

fn is_point(byte: u8) -> bool
    ensures { result ≡ is_point byte }
{
    byte == b'.' || byte == b','
}

fn is_exponent_mark(byte: u8) -> bool
    ensures { result ≡ is_exponent_mark byte }
{
    byte == b'e' || byte == b'E'
}

fn is_sign(byte: u8) -> bool
    ensures { result ≡ is_sign byte }
{
    byte == b'+' || byte == b'-'
}

fn without_sign(text: &[u8]) -> &[u8]
    ensures { result.now ≡ without_sign text.now }
{
    match text {
        [first, rest @ ..] if is_sign(*first) => rest,
        _ => text,
    }
}

fn has_digit(text: &[u8]) -> bool
    ensures { result ≡ list_any is_digit text.now }
{
    text.iter().any(|byte| is_digit(*byte))
}

fn has_only_digits(text: &[u8]) -> bool
    ensures { result ≡ list_all is_digit text.now }
{
    text.iter().all(|byte| is_digit(*byte))
}

fn has_only_digits_and_points(text: &[u8]) -> bool
    ensures { result ≡ list_all (λ c. is_digit c || is_point c) text.now }
{
    text.iter().all(|byte| is_digit(*byte) || is_point(*byte))
}

fn points_in(text: &[u8]) -> usize
    ensures { result ≡ count_by is_point text.now }
{
    text.iter().filter(|byte| is_point(**byte)).count()
}

fn are_digits(text: &[u8]) -> bool
    ensures { result ≡ are_digits text.now }
{
    has_digit(text) && has_only_digits(text)
}

fn is_mantissa(text: &[u8]) -> bool
    ensures { result ≡ is_mantissa text.now }
{
    has_digit(text) && has_only_digits_and_points(text) && points_in(text) <= 1
}

fn is_scaled(text: &[u8], mark: Option<usize>) -> bool
    requires { IfSome mark (λ i. i < length text.now) }
    ensures { result ≡ is_scaled text.now mark }
{
    match mark {
        Some(place) => {
            is_mantissa(&text[..place]) && are_digits(without_sign(&text[place + 1..]))
        }
        None => is_mantissa(text),
    }
}

fn exponent_place(text: &[u8]) -> Option<usize>
    ensures place { result ≡ position is_exponent_mark text.now }
    ensures within { IfSome result (λ i. i < length text.now) }
{
    text.iter().position(|byte| is_exponent_mark(*byte))
}

// Whether the text looks like a decimal number.
fn is_decimal(text: &[u8]) -> bool
    ensures { result ≡ is_decimal text.now }
{
    let unsigned = without_sign(text);
    is_scaled(unsigned, exponent_place(unsigned))
}

fn is_decimal_value(value: ValueRef<'_>) -> bool
    ensures { result ≡ is_decimal_value (lent_value value.entry) }
{
    match value {
        ValueRef::String(text) => is_decimal(text),
        _ => false,
    }
}

fn is_blank(value: ValueRef<'_>) -> bool
    ensures { result ≡ is_blank (lent_value value.entry) }
{
    match value {
        ValueRef::Null => true,
        ValueRef::String(text) => text.is_empty(),
        _ => false,
    }
}

fn has_a_decimal(column: &Column) -> bool
    ensures { result ≡ list_any is_decimal_value (values column.now) }
{
    for row in 0..column.len() {
        if is_decimal_value(column.get(row)) {
            return true;
        }
    }
    false
}

fn has_no_other(column: &Column) -> bool
    ensures { result ≡ list_all (λ v. is_blank v || is_decimal_value v) (values column.now) }
{
    for row in 0..column.len() {
        if !is_blank(column.get(row)) && !is_decimal_value(column.get(row)) {
            return false;
        }
    }
    true
}

// Whether a type is given for the name.
fn is_typed(types: &[TypeOf], name: &PlSmallStr) -> bool
    ensures { result ≡ list_any (λ (t : TypeOf). same_name t.name name.now) types.now }
{
    types.iter().any(|given| given.name == *name)
}

/// Whether the values of the column look like decimal numbers, blanks apart, and are read as texts unasked.
pub(crate) fn is_told_decimal(types: &[TypeOf], column: &Column) -> bool
    ensures { result ≡ is_told_decimal types.now (plain_column column.now) }
{
    !is_typed(types, column.name()) && has_no_other(column) && has_a_decimal(column)
}

/// Refuses the first column with one of these names whose values look like decimal numbers, blanks apart, and are read as texts
/// unasked.
///
/// # Errors
///
/// `Decimals` of that column, or `OutOfMemory`.
pub fn check_undecimal(
    alloc: Global,
    types: &[TypeOf],
    comparison: Comparison,
    names: &NameSet<'_>,
    table: &DataFrame,
) -> Result<(), FrontFault>
    ensures { Settles result
        (first_decimals types.now comparison (has_name names.now) (table_of table.now)) }
{
    for column in table.get_columns() {
        if names.contains(column.name()) && is_told_decimal(types, column) {
            let name = column.name().copy(alloc)?;
            return Err(FrontFault::Decimals(comparison, name));
        }
    }
    Ok(())
}
