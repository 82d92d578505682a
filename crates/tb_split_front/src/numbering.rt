//! Tables with the numbers of their rows.
ghost use Rattle.std.specs.Prelude.{◌≡◌, ◌≤◌, ◌∷◌, Some, IfOk, OnOk};
ghost use Rattle.tb_value.specs.Promise.Kind as kind;
ghost use Rattle.tb_value.specs.Promise.Pairs.{row_numbers};
ghost use Rattle.tb_value.specs.Refusals.{Settles};
ghost use Rattle.tb_value.specs.SeeKind.{kind_of};
ghost use Rattle.tb_value.specs.declared.limits.TheConstants.{MAX_ROWS};
ghost use Rattle.tb_frame.specs.Promise.Table.{IsTable, plain_column, table_of};
ghost use Rattle.tb_split_front.specs.Promise.Parts.{number_column, number_refusal, numbered};

use std::alloc::Global;
use tb_frame::{DataFrame, column_name_set};
use tb_store::{Cells, Chunks, Column, IsSorted, Series};
use tb_value::{
    DataType, IdxSize, MAX_ROWS, OutOfMemory, PlSmallStr, PolarsError, PolarsResult, only_memory,
};

// The numbers of so many rows.
fn numbers_of(alloc: Global, rows: usize) -> Result<Vec<IdxSize>, OutOfMemory>
    requires { rows ≤ MAX_ROWS }
    ensures { IfOk result (λ v. v.items ≡ row_numbers rows) }
{
    let mut numbers = Vec::with_capacity(alloc, rows)?;
    for row in 0..rows {
        numbers.push(row as IdxSize)?;
    }
    Ok(numbers)
}

fn number_type() -> DataType
    ensures { kind_of result ≡ kind.uint32 }
{
    DataType::UInt32
}

// The column of the numbers of so many rows, in one chunk.
fn number_column(alloc: Global, name: &PlSmallStr, rows: usize) -> Result<Column, OutOfMemory>
    requires { rows ≤ MAX_ROWS }
    ensures { IfOk result (λ c. plain_column c ≡ number_column name.now rows) }
{
    let numbers = numbers_of(alloc, rows)?;
    let name = name.copy(alloc)?;
    let mut chunks = Vec::with_capacity(alloc, 1)?;
    chunks.push(Cells::from_vec(alloc, numbers))?;
    let series = Series::from_parts(
        name,
        number_type(),
        Chunks::UInt32Type(chunks),
        IsSorted::Not,
    );
    Ok(series.into_column())
}

// Refuses a name that a column has (Duplicate).
fn check_new(alloc: Global, name: &PlSmallStr, table: &DataFrame) -> PolarsResult<()>
    ensures settles { Settles result (number_refusal (Some name.now) (table_of table.now)) }
    ensures table { OnOk result (IsTable (table_of table.now)) }
{
    let columns = table.get_columns();
    if column_name_set(alloc, columns)?.contains(name) {
        return Err(PolarsError::Duplicate(name.copy(alloc)?));
    }
    Ok(())
}

// The columns of the table behind another.
fn put_first(first: Column, table: DataFrame) -> Result<Vec<Column>, OutOfMemory>
    ensures { IfOk result (λ v. v.items ≡ first ∷ table) }
{
    let mut columns = table.into_columns();
    columns.insert(0, first)?;
    Ok(columns)
}

// The table behind a column of the numbers of its rows. Refuses a name that a column has (Duplicate).
fn with_numbers(alloc: Global, name: &PlSmallStr, table: DataFrame) -> PolarsResult<DataFrame>
    ensures settles { Settles result (number_refusal (Some name.now) (table_of table)) }
    ensures table { IfOk result (λ t. table_of t ≡ numbered (Some name.now) (table_of table)) }
{
    check_new(alloc, name, &table)?;
    let numbers = number_column(alloc, name, table.height())?;
    let columns = put_first(numbers, table)?;
    let table = only_memory(DataFrame::new(alloc, columns))?;
    Ok(table)
}

/// The table behind a column of the numbers of its rows, where a name is given for one.
///
/// # Errors
///
/// `Duplicate` of a name that a column has, or `OutOfMemory`.
pub(crate) fn numbered(
    alloc: Global,
    number: &Option<PlSmallStr>,
    table: DataFrame,
) -> PolarsResult<DataFrame>
    ensures settles { Settles result (number_refusal number.now (table_of table)) }
    ensures table { IfOk result (λ t. table_of t ≡ numbered number.now (table_of table)) }
{
    match number {
        Some(name) => with_numbers(alloc, name, table),
        None => Ok(table),
    }
}
