//! The fields of a column.
ghost use Rattle.std.specs.Prelude.{◌≡◌, ◌<◌, ◌++◌, [], None, IfOk, OnOk, false, length, map, slice_index_or};
ghost use Rattle.csv.specs.Records.{fields_of};
ghost use Rattle.tb_value.specs.Promise.Datum.{int};
ghost use Rattle.tb_chunk.specs.Chunk.{or_null};
ghost use Rattle.tb_csv.specs.Numbers.{number_field};
ghost use Rattle.tb_csv.specs.Promise.Records.{bytes_of, field};
ghost use Rattle.tb_csv.specs.Read.{bare_fields, held_fields, lent_field};

use crate::numbers::Numbers;
use crate::run::field;
use csv::StringRecord;
use itoa::Buffer;
use std::alloc::Global;
use tb_value::OutOfMemory;

/// The fields of a column of some rows.
#[derive(Drop)]
pub(crate) enum FieldColumn {
    /// Whole numbers, in place of the fields that are written so.
    Numbers(Numbers),
    /// The bytes of fields that stand in no quotes.
    Texts(StringRecord),
}

/// The field of this row, which stands in no quotes.
pub(crate) fn bare_field(texts: &StringRecord, row: usize) -> Option<&str>
    requires { row < length (fields_of texts.now) }
    ensures { lent_field result ≡ slice_index_or (bare_fields (fields_of texts.now)) row None }
{
    let Some(text) = texts.get(row) else {
        unreachable!()
    };
    field(false, text)
}

fn number_text(digits: &mut Buffer, number: Option<i64>) -> Option<&str>
    ensures { lent_field result ≡ number_field (or_null int number) }
{
    match number {
        Some(number) => Some(digits.format(number)),
        None => None,
    }
}

/// The field of a row of a column, which may stand in the room that is given.
pub(crate) fn column_text<'a>(
    digits: &'a mut Buffer,
    column: &'a FieldColumn,
    row: usize,
) -> Option<&'a str>
    requires { row < length (held_fields column.now) }
    ensures { lent_field result ≡ slice_index_or (held_fields column.now) row None }
{
    match column {
        FieldColumn::Numbers(numbers) => number_text(digits, numbers.get(row)),
        FieldColumn::Texts(texts) => bare_field(texts, row),
    }
}

// The bytes by which a field that stands in no quotes is kept.
fn bare_bytes(text: Option<&str>) -> &str
    ensures { result.now ≡ bytes_of (lent_field text.entry) }
{
    text.unwrap_or("")
}

// Appends the fields of a column.
fn push_texts(texts: &mut StringRecord, column: &FieldColumn) -> Result<(), OutOfMemory>
    ensures { OnOk result (bare_fields (fields_of texts.new)
        ≡ bare_fields (fields_of texts.old) ++ held_fields column.now) }
{
    let mut digits = Buffer::new();
    for row in 0..column.len() {
        texts.push_field(bare_bytes(column_text(&mut digits, column, row)))?;
    }
    Ok(())
}

// The fields of both columns as texts, those of the second behind the others.
fn texts_of_both(
    alloc: Global,
    first: &FieldColumn,
    second: &FieldColumn,
) -> Result<StringRecord, OutOfMemory>
    ensures { IfOk result (λ t.
        bare_fields (fields_of t) ≡ held_fields first.now ++ held_fields second.now) }
{
    let mut texts = StringRecord::with_capacity(alloc, 0, first.len())?;
    push_texts(&mut texts, first)?;
    push_texts(&mut texts, second)?;
    Ok(texts)
}

impl FieldColumn {
    /// How many rows there are.
    pub(crate) fn len(&self) -> usize
        ensures { result ≡ length (held_fields self.now) }
    {
        match self {
            FieldColumn::Numbers(numbers) => numbers.len(),
            FieldColumn::Texts(texts) => texts.len(),
        }
    }

    /// Appends the fields of another column. They stay numbers where both are.
    pub(crate) fn append(&mut self, alloc: Global, other: &FieldColumn) -> Result<(), OutOfMemory>
        ensures { OnOk result
            (held_fields self.new ≡ held_fields self.old ++ held_fields other.now) }
    {
        match self {
            FieldColumn::Numbers(numbers) => match other {
                FieldColumn::Numbers(more) => numbers.append(alloc, more),
                FieldColumn::Texts(_) => {
                    *self = FieldColumn::Texts(texts_of_both(alloc, self, other)?);
                    Ok(())
                }
            },
            FieldColumn::Texts(texts) => push_texts(texts, other),
        }
    }
}

/// One of the columns.
pub(crate) fn column_at(columns: &[FieldColumn], column: usize) -> &FieldColumn
    requires { column < length columns.now }
    ensures { held_fields result.now ≡ slice_index_or (map held_fields columns.now) column [] }
{
    &columns[column]
}
