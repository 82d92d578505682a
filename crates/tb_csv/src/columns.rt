//! The columns of what was read.
ghost use Rattle.std.specs.Prelude.{◌≡◌, ◌<◌, List, length, true, false, IfOk, MatchOption};
ghost use Rattle.std.specs.List.{AllZip, list_all};
ghost use Rattle.tb_value.specs.Promise.Pairs.{row_numbers};
ghost use Rattle.tb_frame.specs.Promise.Table.{plain_column, table_of};
ghost use Rattle.tb_csv.specs.Promise.Faults.{column_fault, columns_fault};
ghost use Rattle.tb_csv.specs.Faults.{Settles};
ghost use Rattle.tb_csv.specs.Fields.{fields_in};
ghost use Rattle.tb_csv.specs.Read.{AreRows, IsLevel, IsReadColumn};
ghost use Rattle.tb_csv.specs.Promise.Records.{Record};
ghost use Rattle.tb_csv.specs.Promise.Tables.{csv_columns, typed_column};
ghost use Rattle.tb_csv.specs.Promise.Types.{given_type, is_of, told_type};

use crate::cells::{are_of, read_chunk};
use crate::fault::CsvFault;
use crate::field_type::FieldType;
use crate::lent::Fields;
use crate::options::TypeOf;
use crate::records::Records;
use rayon::prelude::*;
use std::alloc::Global;
use std::thread::Threads;
use tb_store::{Column, IsSorted, Series};
use tb_value::{OutOfMemory, PlSmallStr};

/// The type that is given for the name, if one is.
pub(crate) fn given_type(types: &[TypeOf], name: &PlSmallStr) -> Option<FieldType>
    ensures { result ≡ given_type types.now name.now }
{
    types
        .iter()
        .find(|given| given.name == *name)
        .map(|given| given.field_type)
}

/// The type that the fields tell.
pub(crate) fn told_type(fields: Fields) -> FieldType
    ensures { result ≡ told_type (fields_in fields.entry) }
{
    if are_of(FieldType::Int64, fields) {
        FieldType::Int64
    } else {
        told_otherwise(fields)
    }
}

// The type that fields tell of which one at least is no whole number.
fn told_otherwise(fields: Fields) -> FieldType
    ensures { list_all (is_of FieldType.Int64) (fields_in fields.entry) ≡ false
        → result ≡ told_type (fields_in fields.entry) }
{
    if are_of(FieldType::Boolean, fields) {
        FieldType::Boolean
    } else if are_of(FieldType::Date, fields) {
        FieldType::Date
    } else {
        FieldType::String
    }
}

// The column of this name whose fields are read as this type.
fn read_column(
    alloc: Global,
    name: &PlSmallStr,
    field_type: FieldType,
    fields: Fields,
) -> Result<Column, CsvFault>
    ensures settles { Settles result (column_fault name.now field_type 1 (fields_in fields.entry)) }
    ensures column { IfOk result (λ c.
        plain_column c ≡ typed_column name.now field_type (fields_in fields.entry)) }
{
    let chunks = read_chunk(alloc, name, field_type, fields)?;
    let name = name.copy(alloc)?;
    let series = Series::from_parts(name, field_type.data_type(), chunks, IsSorted::Not);
    Ok(series.into_column())
}

// The column of this name whose fields are whole numbers, or None where one of them is none.
fn whole_numbers(
    alloc: Global,
    name: &PlSmallStr,
    fields: Fields,
) -> Result<Option<Column>, OutOfMemory>
    ensures { IfOk result (λ o. MatchOption o
        (list_all (is_of FieldType.Int64) (fields_in fields.entry) ≡ false)
        (λ c. (list_all (is_of FieldType.Int64) (fields_in fields.entry) ≡ true)
        × (plain_column c ≡ typed_column name.now FieldType.Int64 (fields_in fields.entry)))) }
{
    match read_column(alloc, name, FieldType::Int64, fields) {
        Ok(column) => Ok(Some(column)),
        Err(CsvFault::NotOfType { .. }) => Ok(None),
        Err(_) => Err(OutOfMemory),
    }
}

// The column of this name, of the type that its fields tell. Most columns are whole numbers, which are read as they are told.
fn told_column(alloc: Global, name: &PlSmallStr, fields: Fields) -> Result<Column, CsvFault>
    ensures settles { Settles result
        (column_fault name.now (told_type (fields_in fields.entry)) 1 (fields_in fields.entry)) }
    ensures column { IfOk result (λ c. plain_column c
        ≡ typed_column name.now (told_type (fields_in fields.entry)) (fields_in fields.entry)) }
{
    match whole_numbers(alloc, name, fields)? {
        Some(column) => Ok(column),
        None => read_column(alloc, name, told_otherwise(fields), fields),
    }
}

// A column of the table.
fn csv_column(
    alloc: Global,
    records: &Records,
    types: &[TypeOf],
    column: usize,
) -> Result<Column, CsvFault>
    requires column { column < length records.now.names.items }
    requires level { IsLevel records.now }
    ensures { (rows : List Record) → AreRows records.now rows
        → IsReadColumn types.now records.now.names.items rows column result }
{
    let fields = records.column(column);
    let name = &records.names[column];
    match given_type(types, name) {
        Some(given) => read_column(alloc, name, given, fields),
        None => told_column(alloc, name, fields),
    }
}

// Columns of fewer rows are read in less time than a thread takes to start.
const WORTH_A_THREAD: usize = 8_192;

// How many columns a thread reads at least.
fn columns_a_thread(columns: usize, rows: usize) -> usize {
    if rows < WORTH_A_THREAD { columns } else { 1 }
}

// What reading each column gives, side by side.
fn each_column(
    rt: &(impl Threads + Sync),
    alloc: Global,
    records: &Records,
    types: &[TypeOf],
) -> Result<Vec<Result<Column, CsvFault>>, OutOfMemory>
    requires level { IsLevel records.now }
    ensures { (rows : List Record) → AreRows records.now rows → IfOk result (λ v. AllZip
        (IsReadColumn types.now records.now.names.items rows)
        (row_numbers (length records.now.names.items)) v.items) }
{
    let width = records.names.len();
    let columns = (0..width)
        .into_par_iter()
        .with_min_len(columns_a_thread(width, records.height))
        .map(
            |column: usize| -> Result<Column, CsvFault>
                requires column { column < length records.now.names.items }
                requires level { IsLevel records.now }
                ensures { (rows : List Record) → AreRows records.entry.now rows → IsReadColumn
                    types.entry.now records.entry.now.names.items rows column result }
            { csv_column(alloc, records, types, column) },
        )
        .collect(rt, alloc)?;
    Ok(columns)
}

/// The columns of the table, read side by side.
pub(crate) fn csv_columns(
    rt: &(impl Threads + Sync),
    alloc: Global,
    records: &Records,
    types: &[TypeOf],
) -> Result<Vec<Column>, CsvFault>
    requires level { IsLevel records.now }
    ensures settles { (rows : List Record) → AreRows records.now rows
        → Settles result (columns_fault types.now records.now.names.items rows) }
    ensures columns { (rows : List Record) → AreRows records.now rows
        → IfOk result (λ v.
        table_of v.items ≡ csv_columns types.now records.now.names.items rows) }
{
    let read = each_column(rt, alloc, records, types)?;
    let mut columns = Vec::with_capacity(alloc, read.len())?;
    for column in read {
        columns.push(column?)?;
    }
    Ok(columns)
}
