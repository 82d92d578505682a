//! The names and the bytes of the fields of a text.
ghost use Rattle.std.specs.Prelude.{[], ◌≡◌, ◌≤◌, ◌*◌, ◌++◌, ℕ, List, length, not, nat_lt, true, false, IfOk, IfSome, IfNone, OnOk};
ghost use Rattle.std.specs.List.{list_all};
ghost use Rattle.std.specs.Str.{is_utf8};
ghost use Rattle.csv.specs.Records.{fields_of};
ghost use Rattle.tb_value.specs.Promise.Refusals.{when};
ghost use Rattle.tb_csv.specs.Promise.Faults.{records_fault, repeated_name, row_fault, rows_fault};
ghost use Rattle.tb_csv.specs.Faults.{Settles};
ghost use Rattle.tb_csv.specs.Left.{IsNext, Leaves};
ghost use Rattle.tb_csv.specs.Read.{AreLines, all_fields};
ghost use Rattle.tb_csv.specs.Promise.Records.{Line, form, is_text, lines_of};
ghost use Rattle.tb_value.specs.declared.limits.TheConstants.{MAX_ROWS};
ghost use Rattle.tb_csv.specs.declared.fault.CsvFault.TheVariants.{NotUtf8, TooManyRows};

use crate::fault::CsvFault;
use crate::reading::{next_record, open_reader};
use csv::{ByteRecord, Reader, StringRecord};
use std::alloc::Global;
use tb_frame::check_repeated;
use tb_value::{MAX_ROWS, OutOfMemory, PlSmallStr, PolarsError};

/// The names of a text, and the bytes of the fields of its rows one behind another.
#[derive(Drop)]
pub(crate) struct Lines {
    pub(crate) names: Vec<PlSmallStr>,
    pub(crate) fields: StringRecord,
    pub(crate) height: usize,
}

/// The bytes as a text, if they are UTF-8.
pub(crate) fn utf8_text(field: &[u8]) -> Option<&str>
    ensures text { IfSome result (λ s. (s.now ≡ field.now) × (is_utf8 field.now ≡ true)) }
    ensures none { IfNone result (is_utf8 field.now ≡ false) }
{
    str::from_utf8(field).ok()
}

// The fields as names, or the fault that one of them is not UTF-8.
fn names_in(alloc: Global, row: &ByteRecord) -> Result<Vec<PlSmallStr>, CsvFault>
    ensures settles { Settles result (when (not (is_text (fields_of row.now))) (NotUtf8 0)) }
    ensures names { IfOk result (λ v. v.items ≡ fields_of row.now) }
{
    let mut names = Vec::with_capacity(alloc, row.len())?;
    for field in row {
        let Some(name) = utf8_text(field) else {
            return Err(CsvFault::NotUtf8 { record: 0 });
        };
        names.push(PlSmallStr::from_str(alloc, name)?)?;
    }
    Ok(names)
}

fn check_names(alloc: Global, names: &[PlSmallStr]) -> Result<(), CsvFault>
    ensures { Settles result (repeated_name names.now) }
{
    match check_repeated(alloc, names) {
        Ok(()) => Ok(()),
        Err(PolarsError::Duplicate(name)) => Err(CsvFault::RepeatedName(name)),
        Err(_) => Err(CsvFault::OutOfMemory),
    }
}

// About how many fields a text has: one ends at each separator and each line feed, or with the text. No contract rests on it.
fn likely_fields(text: &[u8], separator: u8) -> usize {
    text.iter().fold(1, |count: usize, byte| {
        count.wrapping_add(usize::from(*byte == separator || *byte == b'\n'))
    })
}

/// No fields, with room for those of a text.
pub(crate) fn room_for_fields(
    alloc: Global,
    text: &[u8],
    separator: u8,
) -> Result<StringRecord, OutOfMemory>
    ensures { IfOk result (λ r. fields_of r ≡ []) }
{
    let fields = likely_fields(text, separator);
    Ok(StringRecord::with_capacity(alloc, text.len(), fields)?)
}

// Appends the fields of a record, and says whether all are UTF-8. If not, some may have been appended.
fn push_texts(fields: &mut StringRecord, row: &ByteRecord) -> Result<bool, OutOfMemory>
    ensures text { IfOk result (λ b. b ≡ is_text (fields_of row.now)) }
    ensures fields { IfOk result (λ b.
        b ≡ true → fields_of fields.new ≡ fields_of fields.old ++ fields_of row.now) }
{
    for field in row {
        let Some(text) = utf8_text(field) else {
            return Ok(false);
        };
        fields.push_field(text)?;
    }
    Ok(true)
}

// Appends the fields of a row.
fn push_line(
    fields: &mut StringRecord,
    row: &ByteRecord,
    width: usize,
    place: u64,
) -> Result<(), CsvFault>
    ensures settles { Settles result (row_fault width place (fields_of row.now)) }
    ensures fields { OnOk result
        (fields_of fields.new ≡ fields_of fields.old ++ fields_of row.now) }
{
    if row.len() != width {
        return Err(CsvFault::FieldCount {
            record: place,
            expected: width,
            found: row.len(),
        });
    }
    if push_texts(fields, row)? {
        Ok(())
    } else {
        Err(CsvFault::NotUtf8 { record: place })
    }
}

/// Appends the fields of all rows that the reader has left, in at most so many turns, and counts the rows.
pub(crate) fn read_rows(
    reader: &mut Reader<&[u8]>,
    row: &mut ByteRecord,
    fields: &mut StringRecord,
    width: usize,
    turns: usize,
) -> Result<usize, CsvFault>
    ensures settles { (separator : ℕ) (lines : List Line) → Leaves (form separator) turns lines reader.old
        → Settles result (rows_fault width 1 lines) }
    ensures rows { (separator : ℕ) (lines : List Line) → Leaves (form separator) turns lines reader.old
        → IfOk result (λ height. (height ≡ length lines)
        × (fields_of fields.new ≡ fields_of fields.old ++ all_fields lines)) }
{
    for turn in 0..turns {
        if !next_record(reader, row)? {
            return Ok(turn);
        }
        push_line(fields, row, width, turn as u64 + 1)?;
    }
    Ok(turns)
}

pub(crate) fn check_height(height: usize) -> Result<(), CsvFault>
    ensures settles { Settles result (when (nat_lt MAX_ROWS height) TooManyRows) }
    ensures few { OnOk result (height ≤ MAX_ROWS) }
{
    if MAX_ROWS < height {
        Err(CsvFault::TooManyRows)
    } else {
        Ok(())
    }
}

/// The bytes of the records of a text, or why they are no names and rows.
pub(crate) fn read_lines(alloc: Global, text: &[u8], separator: u8) -> Result<Lines, CsvFault>
    ensures settles { Settles result (records_fault (lines_of separator text.now)) }
    ensures read { IfOk result (λ r. AreLines r (lines_of separator text.now)) }
    ensures full { IfOk result (λ r.
        length (fields_of r.fields) ≡ r.height * length r.names.items) }
    ensures few { IfOk result (λ r. r.height ≤ MAX_ROWS) }
{
    let mut reader = open_reader(alloc, text, separator);
    let mut row = ByteRecord::new(alloc);
    if !next_record(&mut reader, &mut row)? {
        return Err(CsvFault::Empty);
    }
    let names = names_in(alloc, &row)?;
    check_names(alloc, &names)?;
    let mut fields = room_for_fields(alloc, text, separator)?;
    let height = read_rows(&mut reader, &mut row, &mut fields, names.len(), text.len())?;
    check_height(height)?;
    Ok(Lines {
        names,
        fields,
        height,
    })
}
