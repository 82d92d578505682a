//! Fields that stand row by row, put into columns.
ghost use Rattle.std.specs.Prelude.{◌≡◌, ◌<◌, ◌*◌, IfOk, IfSome, false, length, map, true};
ghost use Rattle.std.specs.List.{list_all};
ghost use Rattle.csv.specs.Records.{fields_of};
ghost use Rattle.tb_value.specs.Promise.Pairs.{row_numbers};
ghost use Rattle.tb_csv.specs.Numbers.{number_fields};
ghost use Rattle.tb_csv.specs.Promise.Records.{field};
ghost use Rattle.tb_csv.specs.Read.{bare_fields, fields_down, held_fields, is_text_field, lent_field};

use crate::field_column::FieldColumn;
use crate::lines::utf8_text;
use crate::numbers::{Numbers, number_in};
use crate::rows::Rows;
use csv::StringRecord;
use std::alloc::Global;
use tb_value::OutOfMemory;

// The whole numbers that all fields of a column are, if they are.
fn column_numbers<R: Rows>(
    alloc: Global,
    rows: &R,
    width: usize,
    height: usize,
    column: usize,
) -> Result<Option<Numbers>, OutOfMemory>
    requires column { column < width }
    requires full { length (R.shown rows.now) ≡ height * width }
    ensures { IfOk result (λ o. IfSome o (λ n.
        number_fields n ≡ fields_down width height column (R.shown rows.now))) }
{
    let mut numbers = Numbers::with_capacity(alloc, height)?;
    for row in 0..height {
        let Some(number) = number_in(rows.field(width, column, row)) else {
            return Ok(None);
        };
        numbers.push(alloc, number)?;
    }
    Ok(Some(numbers))
}

// The text of a field, and the empty one of an absent field. None where the field stands in quotes without a byte, or is no UTF-8.
fn bare_text(given: Option<&[u8]>) -> Option<&str>
    ensures field { IfSome result (λ s. field false s.now ≡ lent_field given.entry) }
    ensures text { IfSome result (λ s. is_text_field (lent_field given.entry) ≡ true) }
{
    match given {
        Some(bytes) if bytes.is_empty() => None,
        Some(bytes) => utf8_text(bytes),
        None => Some(""),
    }
}

// The bytes of the fields of a column, if all are texts, and none stands in quotes without a byte.
fn column_texts<R: Rows>(
    alloc: Global,
    rows: &R,
    width: usize,
    height: usize,
    column: usize,
) -> Result<Option<StringRecord>, OutOfMemory>
    requires column { column < width }
    requires full { length (R.shown rows.now) ≡ height * width }
    ensures fields { IfOk result (λ o. IfSome o (λ r.
        bare_fields (fields_of r) ≡ fields_down width height column (R.shown rows.now))) }
    ensures texts { IfOk result (λ o. IfSome o (λ r.
        list_all is_text_field (bare_fields (fields_of r)) ≡ true)) }
{
    let mut texts = StringRecord::with_capacity(alloc, 0, height)?;
    for row in 0..height {
        let Some(text) = bare_text(rows.field(width, column, row)) else {
            return Ok(None);
        };
        texts.push_field(text)?;
    }
    Ok(Some(texts))
}

// The fields of a column.
#[tactic(auto, using(crate::proofs::NumberWalks::numbers_text))]
fn field_column<R: Rows>(
    alloc: Global,
    rows: &R,
    width: usize,
    height: usize,
    column: usize,
) -> Result<Option<FieldColumn>, OutOfMemory>
    requires column { column < width }
    requires full { length (R.shown rows.now) ≡ height * width }
    ensures fields { IfOk result (λ o. IfSome o (λ c.
        held_fields c ≡ fields_down width height column (R.shown rows.now))) }
    ensures texts { IfOk result (λ o. IfSome o (λ c.
        list_all is_text_field (held_fields c) ≡ true)) }
{
    if let Some(numbers) = column_numbers(alloc, rows, width, height, column)? {
        return Ok(Some(FieldColumn::Numbers(numbers)));
    }
    match column_texts(alloc, rows, width, height, column)? {
        Some(texts) => Ok(Some(FieldColumn::Texts(texts))),
        None => Ok(None),
    }
}

/// The columns of so many rows of so many fields. None where a field isn't UTF-8, or stands in quotes without a byte.
pub(crate) fn field_columns<R: Rows>(
    alloc: Global,
    rows: &R,
    width: usize,
    height: usize,
) -> Result<Option<Vec<FieldColumn>>, OutOfMemory>
    requires full { length (R.shown rows.now) ≡ height * width }
    ensures fields { IfOk result (λ o. IfSome o (λ v. map held_fields v.items
        ≡ map (λ j. fields_down width height j (R.shown rows.now)) (row_numbers width))) }
    ensures texts { IfOk result (λ o. IfSome o (λ v.
        list_all (list_all is_text_field) (map held_fields v.items) ≡ true)) }
{
    let mut columns = Vec::with_capacity(alloc, width)?;
    for column in 0..width {
        match field_column(alloc, rows, width, height, column)? {
            Some(fields) => columns.push(fields)?,
            None => return Ok(None),
        }
    }
    Ok(Some(columns))
}
