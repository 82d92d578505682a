//! The text of a table.
ghost use Rattle.std.specs.Prelude.{◌≡◌, ◌++◌, ◌∷◌, ◌<◌, ◌≤◌, ◌-◌, [], ℕ, Some, length, map, is_none, if◌then◌else◌, IfOk, OnOk};
ghost use Rattle.std.specs.List.{All, find};
ghost use Rattle.std.specs.Option.{option_copied};
ghost use Rattle.tb_value.specs.Promise.Pairs.{row_numbers};
ghost use Rattle.tb_chunk.specs.Promise.Col.{Col, values};
ghost use Rattle.tb_frame.specs.Promise.Table.{height, names_of, table_of};
ghost use Rattle.tb_csv.specs.Faults.{Settles};
ghost use Rattle.tb_csv.specs.Promise.Texts.{csv_text, field_among, field_text, field_type, record_text, row_fields, style, text_refusal};
ghost use Rattle.tb_pieces.specs.Rows.{rows_bytes};
ghost use Rattle.tb_csv.specs.Texts.{gap, row_text};

use crate::fault::CsvFault;
use crate::field_text::push_field;
use crate::field_type::FieldType;
use crate::pieces::push_rows;
use crate::row_field::push_row_field;
use std::alloc::Global;
use std::thread::Threads;
use tb_frame::DataFrame;
use tb_pieces::{PieceColumn, piece_columns};
use tb_store::Column;
use tb_text::Text;
use tb_value::OutOfMemory;

// How many bytes are reserved at most before a piece is written.
const MOST_ROOM: usize = 1 << 20;

// The first column of a type without a text form.
fn without_text(columns: &[Column]) -> Option<&Column>
    ensures { option_copied result ≡ find (λ (c : Col). is_none (field_type c.kind)) columns.now }
{
    columns
        .iter()
        .find(|column| FieldType::of(column.dtype()).is_none())
}

fn check_columns(alloc: Global, columns: &[Column]) -> Result<(), CsvFault>
    ensures { Settles result (text_refusal (table_of columns.now)) }
{
    if columns.is_empty() {
        return Err(CsvFault::Empty);
    }
    match without_text(columns) {
        Some(column) => Err(CsvFault::NoText(column.name().copy(alloc)?)),
        None => Ok(()),
    }
}

// Appends what stands before the field at this place of a record.
fn push_gap(text: &mut Vec<u8>, separator: u8, place: usize) -> Result<(), OutOfMemory>
    ensures { OnOk result (text.new.items ≡ text.old.items ++ gap separator place) }
{
    if place == 0 {
        Ok(())
    } else {
        Ok(text.push(separator)?)
    }
}

// Appends the record of a row of the columns.
fn push_row(
    text: &mut Vec<u8>,
    separator: u8,
    columns: &[PieceColumn<'_>],
    index: usize,
) -> Result<(), OutOfMemory>
    requires { All (λ (c : Col). index < length (values c)) columns.now }
    ensures { OnOk result
        (text.new.items
        ≡ text.old.items ++ record_text separator (row_fields (table_of columns.now) index)) }
{
    for place in 0..columns.len() {
        push_gap(text, separator, place)?;
        push_row_field(text, separator, columns.len(), &columns[place], index)?;
    }
    Ok(text.push(b'\n')?)
}

// Appends the record of the names of the columns.
fn push_names(text: &mut Vec<u8>, separator: u8, columns: &[Column]) -> Result<(), OutOfMemory>
    ensures { OnOk result
        (text.new.items
        ≡ text.old.items
        ++ record_text separator (map (λ n. Some n) (names_of (table_of columns.now)))) }
{
    for place in 0..columns.len() {
        push_gap(text, separator, place)?;
        push_field(text, separator, columns[place].name().as_str().as_bytes())?;
    }
    Ok(text.push(b'\n')?)
}

// The record of the names of the columns.
fn names_text(alloc: Global, separator: u8, columns: &[Column]) -> Result<Vec<u8>, OutOfMemory>
    ensures { IfOk result (λ v.
        v.items ≡ record_text separator (map (λ n. Some n) (names_of (table_of columns.now)))) }
{
    let mut text = Vec::new(alloc);
    push_names(&mut text, separator, columns)?;
    Ok(text)
}

// Room for the text of so many rows, if their fields aren't long. No contract rests on it.
fn room_for(rows: usize, width: usize) -> usize {
    rows.saturating_mul(width).saturating_mul(8).min(MOST_ROOM)
}

/// The records of the rows from one number up to another.
pub(crate) fn rows_text(
    alloc: Global,
    separator: u8,
    columns: &[Column],
    start: usize,
    end: usize,
) -> Result<Vec<u8>, OutOfMemory>
    requires { All (λ (c : Col). end ≤ length (values c)) columns.now }
    ensures { IfOk result (λ v.
        v.items ≡ rows_bytes (row_text separator (table_of columns.now)) start (end - start)) }
{
    let lent = piece_columns(alloc, columns, start)?;
    let mut text = Vec::with_capacity(alloc, room_for(end.saturating_sub(start), columns.len()))?;
    for index in start..end {
        push_row(&mut text, separator, &lent, index)?;
    }
    Ok(text)
}

/// The text of a table: a record of the names, and one for each row. Null is a field without a byte, and the empty text stands in
/// quotes. In a table of one column Null is written as the empty text is, since a line without a byte is no record. A day is
/// written as its date, `YYYY-MM-DD`, or by its number where its year isn't one from 0 to 9999, and other values as their texts,
/// in quotes where they need them. Each record ends with a line feed.
///
/// # Errors
///
/// 1 Empty where the table has no column, 2 NoText of the first column whose type isn't Boolean, a whole number, Date or String, and
/// OutOfMemory.
pub fn csv_of_table(
    rt: &(impl Threads + Sync),
    alloc: Global,
    table: &DataFrame,
    separator: u8,
) -> Result<Text, CsvFault>
    ensures settles { Settles result (text_refusal (table_of table.now)) }
    ensures text { IfOk result (λ t. t ≡ csv_text separator (table_of table.now)) }
{
    let columns = table.get_columns();
    check_columns(alloc, columns)?;
    let mut text = Text::new(alloc);
    let names = names_text(alloc, separator, columns)?;
    text.push(names)?;
    push_rows(rt, alloc, &mut text, table, separator)?;
    Ok(text)
}
