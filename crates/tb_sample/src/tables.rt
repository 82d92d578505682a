//! The tables of the sample.
ghost use Rattle.std.specs.Prelude.{◌≡◌, ◌<◌, ◌≤◌, ◌*◌, ◌%◌, ◌∷◌, [], IfOk, None, length, map, pos};
ghost use Rattle.std.specs.List.{All};
ghost use Rattle.tb_value.specs.Promise.Datum.{int};
ghost use Rattle.tb_value.specs.Promise.Kind.{int64};
ghost use Rattle.tb_value.specs.Promise.Pairs.{row_numbers};
ghost use Rattle.tb_value.specs.SeeKind.{kind_of};
ghost use Rattle.tb_value.specs.Promise.Typed.{HasType};
ghost use Rattle.tb_frame.specs.Frame.{frame_refusal};
ghost use Rattle.tb_frame.specs.Promise.Table.{plain_column, table_of};
ghost use Rattle.tb_sample.specs.Promise.Sample.{left_table, right_table};

use std::alloc::Global;
use tb_frame::DataFrame;
use tb_store::{Cells, Chunks, Column, IsSorted, Series};
use tb_value::{DataType, MAX_ROWS, OutOfMemory, PlSmallStr, only_memory};

// The numbers of the rows.
fn row_numbers(alloc: Global, rows: u32) -> Result<Vec<i64>, OutOfMemory>
    ensures { IfOk result (λ v. v.items ≡ map (λ i. pos i) (row_numbers rows)) }
{
    let numbers = (0..rows).map(|row| i64::from(row)).collect(alloc)?;
    Ok(numbers)
}

// Three times the number of each row.
fn triples(alloc: Global, rows: u32) -> Result<Vec<i64>, OutOfMemory>
    ensures { IfOk result (λ v. v.items ≡ map (λ i. pos (3 * i)) (row_numbers rows)) }
{
    let numbers = (0..rows).map(|row| 3 * i64::from(row)).collect(alloc)?;
    Ok(numbers)
}

fn right_key(row: u32, rows: u32) -> i64
    requires { 0 < rows }
    ensures { result ≡ pos ((7 * row) % rows) }
{
    (7 * u64::from(row) % u64::from(rows)) as i64
}

// Seven times the number of each row, modulo the number of rows.
fn right_keys(alloc: Global, rows: u32) -> Result<Vec<i64>, OutOfMemory>
    requires { 0 < rows }
    ensures { IfOk result (λ v. v.items ≡ map (λ j. pos ((7 * j) % rows)) (row_numbers rows)) }
{
    let numbers = (0..rows).map(|row| right_key(row, rows)).collect(alloc)?;
    Ok(numbers)
}

fn number_type() -> DataType
    ensures { kind_of result ≡ int64 }
{
    DataType::Int64
}

// The column of this name and these numbers, in one chunk.
fn number_column(alloc: Global, name: &str, numbers: Vec<i64>) -> Result<Column, OutOfMemory>
    requires few { length numbers.items ≤ MAX_ROWS }
    requires typed { All (HasType int64) (map int numbers.items) }
    ensures { IfOk result (λ c.
        plain_column c ≡ record { name = name.now; kind = int64; values = map int numbers.items }) }
{
    let name = PlSmallStr::from_str(alloc, name)?;
    let mut chunks = Vec::with_capacity(alloc, 1)?;
    chunks.push(Cells::from_vec(alloc, numbers))?;
    let series = Series::from_parts(
        name,
        number_type(),
        Chunks::Int64Type(chunks),
        IsSorted::Not,
    );
    Ok(series.into_column())
}

// The table of two columns.
fn table_of_two(alloc: Global, first: Column, second: Column) -> Result<DataFrame, OutOfMemory>
    requires { frame_refusal (plain_column first ∷ plain_column second ∷ []) ≡ None }
    ensures { IfOk result (λ t. t ≡ first ∷ second ∷ []) }
{
    let mut columns = Vec::with_capacity(alloc, 2)?;
    columns.push(first)?;
    columns.push(second)?;
    only_memory(DataFrame::new(alloc, columns))
}

/// The left table of this many rows: row i has the key i and v = 3 i.
pub fn left_table(alloc: Global, rows: u32) -> Result<DataFrame, OutOfMemory>
    requires { rows ≤ 2000000 }
    ensures { IfOk result (λ t. table_of t ≡ left_table rows) }
{
    let key = number_column(alloc, "key", row_numbers(alloc, rows)?)?;
    let v = number_column(alloc, "v", triples(alloc, rows)?)?;
    table_of_two(alloc, key, v)
}

/// The right table of this many rows, at least one: row j has the key 7 j modulo the number of rows, and w = j.
pub fn right_table(alloc: Global, rows: u32) -> Result<DataFrame, OutOfMemory>
    requires some { 0 < rows }
    requires few { rows ≤ 2000000 }
    ensures { IfOk result (λ t. table_of t ≡ right_table rows) }
{
    let key = number_column(alloc, "key", right_keys(alloc, rows)?)?;
    let w = number_column(alloc, "w", row_numbers(alloc, rows)?)?;
    table_of_two(alloc, key, w)
}
