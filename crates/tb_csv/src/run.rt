//! The rows of a piece of a text.
ghost use Rattle.std.specs.Prelude.{◌≡◌, ◌<◌, ◌+◌, ◌*◌, None, length, slice_index_or, false, IfOk, IfSome};
ghost use Rattle.csv.specs.Records.{fields_of};
ghost use Rattle.tb_csv.specs.Read.{AreSameFields, IsRunOf, lent_field, text_fields};
ghost use Rattle.tb_csv.specs.Promise.Records.{field};
ghost use Rattle.tb_csv.specs.declared.run.RunFields.TheVariants as held;

use crate::fault::CsvFault;
use crate::field_column::FieldColumn;
use crate::field_columns::field_columns;
use crate::lines::{read_rows, room_for_fields};
use crate::marks::{behind_mark, has_quote, marks_of};
use crate::plain::plain_rows;
use crate::reading::open_reader;
use csv::{ByteRecord, StringRecord};
use std::alloc::Global;
use tb_value::OutOfMemory;

/// Columns of fewer bytes take more room than fields that stand row by row.
pub(crate) const BYTES_OF_A_COLUMN: usize = 64;

// Whether the rows of a piece are put into so many columns. No contract rests on it.
fn has_columns(piece: &[u8], width: usize) -> bool {
    piece.len() / BYTES_OF_A_COLUMN >= width
}

/// Fields that stand row by row.
#[derive(Drop)]
pub(crate) struct TextFields {
    /// Their bytes.
    pub(crate) fields: StringRecord,
    /// Whether each stands in quotes. A field without a mark doesn't.
    pub(crate) marks: Vec<bool>,
}

/// The fields of rows.
#[derive(Drop)]
pub(crate) enum RunFields {
    /// Row by row.
    Rows(TextFields),
    /// Column by column.
    Columns(Vec<FieldColumn>),
}

/// Rows that stand one behind another in a text.
#[derive(Drop)]
pub(crate) struct Run {
    pub(crate) fields: RunFields,
    /// How many rows there are.
    pub(crate) height: usize,
}

// The fields of the rows of a piece, column by column where they can stand so.
fn in_columns(
    alloc: Global,
    piece: &[u8],
    texts: TextFields,
    width: usize,
    height: usize,
) -> Result<RunFields, OutOfMemory>
    requires full { length (fields_of texts.fields) ≡ height * width }
    ensures { IfOk result (AreSameFields width height (held.Rows texts)) }
{
    if !has_columns(piece, width) {
        return Ok(RunFields::Rows(texts));
    }
    match field_columns(alloc, &texts, width, height)? {
        Some(columns) => Ok(RunFields::Columns(columns)),
        None => Ok(RunFields::Rows(texts)),
    }
}

// The rows of a piece of a text, which has no names, or a fault of it.
fn marked_run(alloc: Global, piece: &[u8], separator: u8, width: usize) -> Result<Run, CsvFault>
    ensures { IfOk result (λ r. IsRunOf separator width piece.now r) }
{
    let marks = marks_of(alloc, piece, separator)?;
    if marks.is_open {
        return Err(CsvFault::OpenQuote);
    }
    let mut reader = open_reader(alloc, piece, separator);
    let mut row = ByteRecord::new(alloc);
    let mut fields = room_for_fields(alloc, piece, separator)?;
    let height = read_rows(&mut reader, &mut row, &mut fields, width, piece.len() + 1)?;
    let marks = marks.marks;
    let fields = in_columns(alloc, piece, TextFields { fields, marks }, width, height)?;
    Ok(Run { fields, height })
}

// The same of a piece without a quote that is put into columns. None where it is another, or some field isn't UTF-8, or a row has
// more fields or fewer.
fn bare_run(
    alloc: Global,
    piece: &[u8],
    separator: u8,
    width: usize,
) -> Result<Option<Run>, OutOfMemory>
    ensures { IfOk result (λ o. IfSome o (λ r. IsRunOf separator width piece.now r)) }
{
    if !has_columns(piece, width) || has_quote(piece) {
        return Ok(None);
    }
    let Some(rows) = plain_rows(alloc, behind_mark(piece), separator, width)? else {
        return Ok(None);
    };
    let height = rows.height;
    match field_columns(alloc, &rows, width, height)? {
        Some(columns) => Ok(Some(Run {
            fields: RunFields::Columns(columns),
            height,
        })),
        None => Ok(None),
    }
}

/// The rows of a piece of a text, which has no names, or a fault of it.
pub(crate) fn run_of(
    alloc: Global,
    piece: &[u8],
    separator: u8,
    width: usize,
) -> Result<Run, CsvFault>
    ensures { IfOk result (λ r. IsRunOf separator width piece.now r) }
{
    match bare_run(alloc, piece, separator, width)? {
        Some(run) => Ok(run),
        None => marked_run(alloc, piece, separator, width),
    }
}

/// A field without a byte is absent, unless it stands in quotes.
pub(crate) fn field(in_quotes: bool, text: &str) -> Option<&str>
    ensures { lent_field result ≡ field in_quotes text.now }
{
    if text.is_empty() && !in_quotes {
        None
    } else {
        Some(text)
    }
}

fn mark_at(marks: &[bool], place: usize) -> bool
    ensures { result ≡ slice_index_or marks.now place false }
{
    marks.get(place).copied().unwrap_or(false)
}

impl TextFields {
    /// The field of this column in a row of so many fields, lent.
    pub(crate) fn get(&self, width: usize, column: usize, row: usize) -> Option<&str>
        requires { row * width + column < length (fields_of self.now.fields) }
        ensures { lent_field result
            ≡ slice_index_or (text_fields self.now) (row * width + column) None }
    {
        let _count = self.fields.len();
        let place = row * width + column;
        let Some(text) = self.fields.get(place) else {
            unreachable!()
        };
        field(mark_at(&self.marks, place), text)
    }
}
