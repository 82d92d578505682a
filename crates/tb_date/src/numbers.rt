//! The texts of numbers, of which some are days.
ghost use Rattle.std.specs.Prelude.{◌≡◌, true, IfOk};
ghost use Rattle.jiff_core.specs.Date.{epoch_day};
ghost use Rattle.tb_value.specs.SeeKind.{kind_of};
ghost use Rattle.tb_date.specs.Promise.Dates.{date_text, has_text, is_date, number_text};

use crate::dates::{date_text, dated};
use jiff_core::civil::Date;
use std::alloc::Global;
use std::str;
use tb_label::value_text;
use tb_value::{DataType, OutOfMemory, PlSmallStr, ValueRef};

/// Whether values of the type are days.
pub fn is_date(dtype: &DataType) -> bool
    ensures { result ≡ is_date (kind_of dtype.now) }
{
    matches!(dtype, DataType::Date)
}

fn text_of(alloc: Global, date: Date) -> Result<PlSmallStr, OutOfMemory>
    requires { has_text (epoch_day date) ≡ true }
    ensures { IfOk result (λ s. s ≡ date_text (epoch_day date)) }
{
    match str::from_utf8(&date_text(date)) {
        Ok(text) => PlSmallStr::from_str(alloc, text),
        Err(_) => unreachable!(),
    }
}

/// The text of a number: the date of a day whose year is one from 0 to 9999, and else its digits.
pub fn number_text(alloc: Global, is_day: bool, number: i128) -> Result<PlSmallStr, OutOfMemory>
    ensures { IfOk result (λ s. s ≡ number_text is_day number) }
{
    if is_day && let Some(date) = dated(number) {
        return text_of(alloc, date);
    }
    value_text(alloc, ValueRef::Int(number))
}
