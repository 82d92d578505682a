//! The fields of a column, read into typed chunks.
ghost use Rattle.std.specs.Prelude.{◌≡◌, ◌<◌, ◌≤◌, ◌+◌, ◌++◌, ◌∷◌, [], None, length, map, option_map, slice_index_or, IfOk, IfSome, OnOk};
ghost use Rattle.std.specs.List.{All, list_all};
ghost use Rattle.tb_value.specs.Promise.Datum.{int, string};
ghost use Rattle.tb_value.specs.Promise.Kind.{Kind};
ghost use Rattle.tb_value.specs.Promise.Kind as kind;
ghost use Rattle.tb_value.specs.Promise.Typed.{HasType};
ghost use Rattle.tb_value.specs.declared.limits.TheConstants.{MAX_ROWS};
ghost use Rattle.tb_chunk.specs.Chunk.{or_null};
ghost use Rattle.tb_chunk.specs.Seen.{chunk_lists, storage};
ghost use Rattle.tb_csv.specs.Promise.Faults.{column_fault};
ghost use Rattle.tb_csv.specs.Faults.{Settles};
ghost use Rattle.tb_chunk.specs.Col.{physical};
ghost use Rattle.tb_csv.specs.Fields.{fields_in, part_fields};
ghost use Rattle.tb_csv.specs.Numbers.{number_field};
ghost use Rattle.tb_csv.specs.Read.{held_fields, lent_field};
ghost use Rattle.tb_csv.specs.Promise.Types.{cell_of, cell_value, is_of, kind_at};

use crate::fault::CsvFault;
use crate::field_column::{FieldColumn, bare_field, column_at, column_text};
use crate::field_type::FieldType;
use crate::fields::ReadField;
use crate::lent::{Fields, RunColumn};
use crate::run::RunFields;
use itoa::Buffer;
use std::alloc::Global;
use tb_store::{Cells, Chunk, Chunks, Stored, StringBuilder, StringChunk};
use tb_value::{PlSmallStr, TOO_LONG};

// The cell of a field, or None where it is none of the type.
fn cell_in<N: ReadField>(field_type: FieldType, field: Option<&str>) -> Option<Option<N>>
    requires { physical (kind_at field_type) ≡ N.stored }
    ensures value { option_map (or_null N.shows) result
        ≡ cell_value field_type (lent_field field.entry) }
    ensures typed { IfSome result (λ c. HasType (kind_at field_type) (or_null N.shows c)) }
{
    match field {
        Some(text) if !text.is_empty() => N::read(field_type, text).map(Some),
        _ => Some(None),
    }
}

// The same of the text that a number is written as.
fn whole_cell<N: ReadField>(field_type: FieldType, number: i64) -> Option<Option<N>>
    requires { physical (kind_at field_type) ≡ N.stored }
    ensures value { option_map (or_null N.shows) result
        ≡ cell_value field_type (number_field (int number)) }
    ensures typed { IfSome result (λ c. HasType (kind_at field_type) (or_null N.shows c)) }
{
    match N::of_number(field_type, number) {
        Some(cell) => Some(Some(cell)),
        None => None,
    }
}

// The same of a field that is a number or absent.
fn number_cell<N: ReadField>(field_type: FieldType, number: Option<i64>) -> Option<Option<N>>
    requires { physical (kind_at field_type) ≡ N.stored }
    ensures value { option_map (or_null N.shows) result
        ≡ cell_value field_type (number_field (or_null int number)) }
    ensures typed { IfSome result (λ c. HasType (kind_at field_type) (or_null N.shows c)) }
{
    match number {
        Some(number) => whole_cell(field_type, number),
        None => Some(None),
    }
}

// The same of the field of a row of a column.
fn column_cell<N: ReadField>(
    field_type: FieldType,
    column: &FieldColumn,
    row: usize,
) -> Option<Option<N>>
    requires stored { physical (kind_at field_type) ≡ N.stored }
    requires row { row < length (held_fields column.now) }
    ensures value { option_map (or_null N.shows) result
        ≡ cell_value field_type (slice_index_or (held_fields column.now) row None) }
    ensures typed { IfSome result (λ c. HasType (kind_at field_type) (or_null N.shows c)) }
{
    match column {
        FieldColumn::Numbers(numbers) => number_cell(field_type, numbers.get(row)),
        FieldColumn::Texts(texts) => cell_in(field_type, bare_field(texts, row)),
    }
}

// The same of the field of a row of a run.
fn cell_at<N: ReadField>(field_type: FieldType, part: RunColumn, row: usize) -> Option<Option<N>>
    requires stored { physical (kind_at field_type) ≡ N.stored }
    requires row { row < part.run.now.height }
    ensures value { option_map (or_null N.shows) result
        ≡ cell_value field_type (slice_index_or (part_fields part.entry) row None) }
    ensures typed { IfSome result (λ c. HasType (kind_at field_type) (or_null N.shows c)) }
{
    match &part.run.fields {
        RunFields::Rows(texts) => cell_in(field_type, texts.get(part.width, part.column, row)),
        RunFields::Columns(columns) => column_cell(
            field_type,
            column_at(columns, part.column),
            row,
        ),
    }
}

// Whether a field is absent, or a text that is not too long to be a value.
fn is_short(field: Option<&str>) -> bool
    ensures { result ≡ is_of FieldType.String (lent_field field.entry) }
{
    match field {
        Some(text) => text.len() < TOO_LONG,
        None => true,
    }
}

// The field of a row of a run, which may stand in the room that is given.
fn text_at<'a>(digits: &'a mut Buffer, part: RunColumn<'a>, row: usize) -> Option<&'a str>
    requires { row < part.run.now.height }
    ensures { lent_field result ≡ slice_index_or (part_fields part.entry) row None }
{
    match &part.run.fields {
        RunFields::Rows(texts) => texts.get(part.width, part.column, row),
        RunFields::Columns(columns) => column_text(digits, column_at(columns, part.column), row),
    }
}

// Whether all fields of a run are cells of the type.
fn are_cells<N: ReadField>(field_type: FieldType, part: RunColumn) -> bool
    requires { physical (kind_at field_type) ≡ N.stored }
    ensures { result ≡ list_all (is_of field_type) (part_fields part.entry) }
{
    for row in 0..part.run.height {
        if cell_at::<N>(field_type, part, row).is_none() {
            return false;
        }
    }
    true
}

// Whether no field of a run is too long to be a value.
fn are_short(part: RunColumn) -> bool
    ensures { result ≡ list_all (is_of FieldType.String) (part_fields part.entry) }
{
    let mut digits = Buffer::new();
    for row in 0..part.run.height {
        if !is_short(text_at(&mut digits, part, row)) {
            return false;
        }
    }
    true
}

// Whether all fields of a run are values of the type, or have no byte.
fn are_of_run(field_type: FieldType, part: RunColumn) -> bool
    ensures { result ≡ list_all (is_of field_type) (part_fields part.entry) }
{
    match field_type {
        FieldType::Boolean => are_cells::<bool>(field_type, part),
        FieldType::Int8 => are_cells::<i8>(field_type, part),
        FieldType::Int16 => are_cells::<i16>(field_type, part),
        FieldType::Int32 => are_cells::<i32>(field_type, part),
        FieldType::Int64 => are_cells::<i64>(field_type, part),
        FieldType::Int128 => are_cells::<i128>(field_type, part),
        FieldType::UInt8 => are_cells::<u8>(field_type, part),
        FieldType::UInt16 => are_cells::<u16>(field_type, part),
        FieldType::UInt32 => are_cells::<u32>(field_type, part),
        FieldType::UInt64 => are_cells::<u64>(field_type, part),
        FieldType::String => are_short(part),
        FieldType::Date => are_cells::<i32>(field_type, part),
    }
}

/// Whether all fields are values of the type, or have no byte.
pub(crate) fn are_of(field_type: FieldType, fields: Fields) -> bool
    ensures { result ≡ list_all (is_of field_type) (fields_in fields.entry) }
{
    for run in &fields.records.runs {
        if !are_of_run(field_type, fields.of_run(run)) {
            return false;
        }
    }
    true
}

// Appends the cells of the fields of a run, which stand behind so many rows, or tells the first that is none of the type.
fn push_cells<N: ReadField>(
    alloc: Global,
    cells: &mut Cells<N>,
    name: &PlSmallStr,
    field_type: FieldType,
    part: RunColumn,
    before: usize,
) -> Result<(), CsvFault>
    requires stored { physical (kind_at field_type) ≡ N.stored }
    requires typed { All (HasType (kind_at field_type)) (map (or_null N.shows) cells.old) }
    requires few { before + part.run.now.height ≤ MAX_ROWS }
    ensures settles { Settles result
        (column_fault name.now field_type (before + 1) (part_fields part.entry)) }
    ensures cells { OnOk result (map (or_null N.shows) cells.new
        ≡ map (or_null N.shows) cells.old ++ map (cell_of field_type) (part_fields part.entry)) }
    ensures typed { OnOk result
        (All (HasType (kind_at field_type)) (map (or_null N.shows) cells.new)) }
{
    for row in 0..part.run.height {
        let Some(cell) = cell_at(field_type, part, row) else {
            return Err(CsvFault::NotOfType {
                record: (before + row) as u64 + 1,
                column: name.copy(alloc)?,
                expected: field_type,
            });
        };
        cells.push(cell)?;
    }
    Ok(())
}

// The cells of the fields of a column, or the first field that is none of the type.
fn cells_of<N: ReadField>(
    alloc: Global,
    name: &PlSmallStr,
    field_type: FieldType,
    fields: Fields,
) -> Result<Cells<N>, CsvFault>
    requires { physical (kind_at field_type) ≡ N.stored }
    ensures settles { Settles result
        (column_fault name.now field_type 1 (fields_in fields.entry)) }
    ensures cells { IfOk result (λ c.
        map (or_null N.shows) c ≡ map (cell_of field_type) (fields_in fields.entry)) }
    ensures typed { IfOk result (λ c.
        All (HasType (kind_at field_type)) (map (or_null N.shows) c)) }
{
    let mut cells = Cells::with_capacity(alloc, fields.records.height)?;
    let mut before = 0;
    for run in &fields.records.runs {
        let part = fields.of_run(run);
        push_cells(alloc, &mut cells, name, field_type, part, before)?;
        before += run.height;
    }
    Ok(cells)
}

// Appends the texts of the fields of a run, which stand behind so many rows, or tells the first that is too long for one.
fn push_texts(
    alloc: Global,
    builder: &mut StringBuilder,
    name: &PlSmallStr,
    part: RunColumn,
    before: usize,
) -> Result<(), CsvFault>
    requires few { before + part.run.now.height ≤ MAX_ROWS }
    ensures settles { Settles result
        (column_fault name.now FieldType.String (before + 1) (part_fields part.entry)) }
    ensures texts { OnOk result (map (or_null string) builder.new.rows
        ≡ map (or_null string) builder.old.rows
        ++ map (cell_of FieldType.String) (part_fields part.entry)) }
{
    let mut digits = Buffer::new();
    for row in 0..part.run.height {
        let field = text_at(&mut digits, part, row);
        if !is_short(field) {
            return Err(CsvFault::NotOfType {
                record: (before + row) as u64 + 1,
                column: name.copy(alloc)?,
                expected: FieldType::String,
            });
        }
        builder.push_option(alloc, field)?;
    }
    Ok(())
}

// The texts of the fields of a column, or the first field that is too long for one.
fn texts_of(alloc: Global, name: &PlSmallStr, fields: Fields) -> Result<StringChunk, CsvFault>
    ensures settles { Settles result
        (column_fault name.now FieldType.String 1 (fields_in fields.entry)) }
    ensures texts { IfOk result (λ c. ⟦<StringChunk as Chunk>⟧.shown c
        ≡ map (cell_of FieldType.String) (fields_in fields.entry)) }
    ensures typed { IfOk result (λ c.
        All (HasType kind.string) (⟦<StringChunk as Chunk>⟧.shown c)) }
{
    let mut builder = StringBuilder::with_capacity(alloc, fields.records.height)?;
    let mut before = 0;
    for run in &fields.records.runs {
        let part = fields.of_run(run);
        push_texts(alloc, &mut builder, name, part, before)?;
        before += run.height;
    }
    Ok(builder.finish(alloc)?)
}

/// A chunk of a column, read from fields. `stored` is the type that its values are stored as.
trait ReadChunk: Chunk {
    ghost stored: { Kind };

    /// The chunk of these fields, or the first of them that is none of the type.
    fn read(
        alloc: Global,
        name: &PlSmallStr,
        field_type: FieldType,
        fields: Fields,
    ) -> Result<Self, CsvFault>
        requires { physical (kind_at field_type) ≡ stored }
        ensures settles { Settles result
            (column_fault name.now field_type 1 (fields_in fields.entry)) }
        ensures values { IfOk result (λ c.
            Self.shown c ≡ map (cell_of field_type) (fields_in fields.entry)) }
        ensures typed { IfOk result (λ c. All (HasType (kind_at field_type)) (Self.shown c)) };
}

impl<N: ReadField> ReadChunk for Cells<N> {
    ghost stored = { N.stored };

    fn read(
        alloc: Global,
        name: &PlSmallStr,
        field_type: FieldType,
        fields: Fields,
    ) -> Result<Cells<N>, CsvFault> {
        cells_of(alloc, name, field_type, fields)
    }
}

impl ReadChunk for StringChunk {
    ghost stored = { kind.string };

    fn read(
        alloc: Global,
        name: &PlSmallStr,
        field_type: FieldType,
        fields: Fields,
    ) -> Result<StringChunk, CsvFault> {
        texts_of(alloc, name, fields)
    }
}

// The one chunk of these fields, as that of a column.
fn read_stored<C: ReadChunk + Stored>(
    alloc: Global,
    name: &PlSmallStr,
    field_type: FieldType,
    fields: Fields,
) -> Result<Chunks, CsvFault>
    requires { physical (kind_at field_type) ≡ C.stored }
    ensures settles { Settles result (column_fault name.now field_type 1 (fields_in fields.entry)) }
    ensures lists { IfOk result (λ c.
        chunk_lists c ≡ map (cell_of field_type) (fields_in fields.entry) ∷ []) }
    ensures typed { IfOk result (λ c.
        All (HasType (kind_at field_type)) (map (cell_of field_type) (fields_in fields.entry))) }
    ensures stored { IfOk result (λ c. storage c ≡ C.kind) }
{
    let chunk = C::read(alloc, name, field_type, fields)?;
    let mut chunks = Vec::with_capacity(alloc, 1)?;
    chunks.push(chunk)?;
    Ok(C::wrap(chunks))
}

/// The fields of the column of this name as one chunk, or the first that is none of the type.
pub(crate) fn read_chunk(
    alloc: Global,
    name: &PlSmallStr,
    field_type: FieldType,
    fields: Fields,
) -> Result<Chunks, CsvFault>
    ensures settles { Settles result (column_fault name.now field_type 1 (fields_in fields.entry)) }
    ensures lists { IfOk result (λ c.
        chunk_lists c ≡ map (cell_of field_type) (fields_in fields.entry) ∷ []) }
    ensures typed { IfOk result (λ c.
        All (HasType (kind_at field_type)) (map (cell_of field_type) (fields_in fields.entry))) }
    ensures stored { IfOk result (λ c. storage c ≡ physical (kind_at field_type)) }
{
    match field_type {
        FieldType::Boolean => read_stored::<Cells<bool>>(alloc, name, field_type, fields),
        FieldType::Int8 => read_stored::<Cells<i8>>(alloc, name, field_type, fields),
        FieldType::Int16 => read_stored::<Cells<i16>>(alloc, name, field_type, fields),
        FieldType::Int32 => read_stored::<Cells<i32>>(alloc, name, field_type, fields),
        FieldType::Int64 => read_stored::<Cells<i64>>(alloc, name, field_type, fields),
        FieldType::Int128 => read_stored::<Cells<i128>>(alloc, name, field_type, fields),
        FieldType::UInt8 => read_stored::<Cells<u8>>(alloc, name, field_type, fields),
        FieldType::UInt16 => read_stored::<Cells<u16>>(alloc, name, field_type, fields),
        FieldType::UInt32 => read_stored::<Cells<u32>>(alloc, name, field_type, fields),
        FieldType::UInt64 => read_stored::<Cells<u64>>(alloc, name, field_type, fields),
        FieldType::String => read_stored::<StringChunk>(alloc, name, field_type, fields),
        FieldType::Date => read_stored::<Cells<i32>>(alloc, name, field_type, fields),
    }
}
