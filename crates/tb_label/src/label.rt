//! The text of a value.
ghost use Rattle.std.specs.Prelude.{◌≡◌, IfOk};
ghost use Rattle.std.specs.Option.{option_copied};
ghost use Rattle.tb_value.specs.Promise.Datum.{int};
ghost use Rattle.tb_value.specs.See.{lent_value, IsText};
ghost use Rattle.tb_value.specs.SeeKind.{kind_of};
ghost use Rattle.tb_label.specs.Promise.Label.{is_header, separator_or, truth_text, value_text};

use std::alloc::Global;
use tb_value::{DataType, OutOfMemory, PlSmallStr, ValueRef, copy_text};

/// Whether values of this type name columns: of Null, Boolean, whole numbers and String.
pub fn is_header_type(dtype: &DataType) -> bool
    ensures { result ≡ is_header (kind_of dtype.now) }
{
    match dtype {
        DataType::Null
        | DataType::Boolean
        | DataType::Int8
        | DataType::Int16
        | DataType::Int32
        | DataType::Int64
        | DataType::Int128
        | DataType::UInt8
        | DataType::UInt16
        | DataType::UInt32
        | DataType::UInt64
        | DataType::String => true,
        DataType::Binary
        | DataType::Date
        | DataType::Datetime(_, _)
        | DataType::Duration(_)
        | DataType::Time
        | DataType::List(_)
        | DataType::Struct(_) => false,
    }
}

/// `true` or `false`.
pub fn truth_text(value: bool) -> &'static str
    ensures { result.now ≡ truth_text value }
{
    if value { "true" } else { "false" }
}

fn number_text(alloc: Global, number: i128) -> Result<PlSmallStr, OutOfMemory>
    ensures { IfOk result (λ s. s ≡ value_text (int number)) }
{
    let text = number.to_string(alloc)?;
    PlSmallStr::from_str(alloc, text.as_str())
}

/// The text of a value. Bytes, lists and structs name no column: their text is empty.
///
/// # Errors
///
/// `OutOfMemory` where memory is wanting.
pub fn value_text(alloc: Global, value: ValueRef<'_>) -> Result<PlSmallStr, OutOfMemory>
    requires { IsText value }
    ensures { IfOk result (λ s. s ≡ value_text (lent_value value.entry)) }
{
    match value {
        ValueRef::Null => PlSmallStr::from_str(alloc, "null"),
        ValueRef::Boolean(b) => PlSmallStr::from_str(alloc, truth_text(b)),
        ValueRef::Int(number) => number_text(alloc, number),
        ValueRef::String(s) => copy_text(alloc, s),
        ValueRef::Binary(_) | ValueRef::List(_) | ValueRef::Struct(_) => {
            PlSmallStr::from_str(alloc, "")
        }
    }
}

/// What stands between the parts of a column's name: the given separator, else `_`.
pub fn given_separator<'a>(separator: Option<&'a str>) -> &'a str
    ensures { result.now ≡ separator_or (option_copied separator.entry) }
{
    match separator {
        Some(separator) => separator,
        None => "_",
    }
}
