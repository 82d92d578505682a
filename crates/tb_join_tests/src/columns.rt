//! Columns and tables that tests make.
ghost use Rattle.std.specs.Prelude.{◌≡◌, ◌∷◌, [], IfOk};
ghost use Rattle.tb_value.specs.Promise.Kind.{int64};

use std::alloc::Global;
use std::test::Fail;
use tb_frame::DataFrame;
use tb_store::{AnyValue, Column, DataType, Series};

// These numbers as a chunk.
fn chunk_of(alloc: Global, keys: &[Option<i64>]) -> Result<Vec<AnyValue>, Fail> {
    let mut chunk = Vec::new(alloc);
    for key in keys {
        chunk.push(match key {
            Some(key) => AnyValue::Int(i128::from(*key)),
            None => AnyValue::Null,
        })?;
    }
    Ok(chunk)
}

// A column of these chunks of numbers.
pub(crate) fn column(alloc: Global, name: &str, chunks: &[&[Option<i64>]]) -> Result<Series, Fail>
    ensures name { IfOk result (λ s. s.name ≡ name.now) }
    ensures kind { IfOk result (λ s. s.kind ≡ int64) }
{
    let mut made = Vec::new(alloc);
    for keys in chunks {
        made.push(chunk_of(alloc, keys)?)?;
    }
    Ok(Series::from_chunks(alloc, name, DataType::Int64, made)?)
}

// Three numbers in two chunks.
pub(crate) fn three_numbers(alloc: Global) -> Result<Series, Fail> {
    column(alloc, "a", &[&[Some(10), Some(20)], &[Some(30)]])
}

// The table of one column.
pub(crate) fn table_with(alloc: Global, column: Column) -> Result<DataFrame, Fail>
    ensures { IfOk result (λ t. t ≡ column ∷ []) }
{
    let mut columns = Vec::new(alloc);
    columns.push(column)?;
    Ok(DataFrame::new(alloc, columns)?)
}
