//! The columns of a table that is made long.
ghost use Rattle.std.specs.Prelude.{◌≡◌, ◌≤◌, ◌*◌, IfOk, length, map, replicate};
ghost use Rattle.std.specs.List.{All, flat_map};
ghost use Rattle.tb_value.specs.Promise.Datum.{Datum, string};
ghost use Rattle.tb_value.specs.Promise.Kind as kind;
ghost use Rattle.tb_value.specs.SeeKind.{kind_of};
ghost use Rattle.tb_value.specs.Promise.Typed.{HasType};
ghost use Rattle.tb_chunk.specs.ChunkTexts.{texts_of};
ghost use Rattle.tb_chunk.specs.Promise.Col.{Col, concatenation, values};
ghost use Rattle.tb_chunk.specs.Lent.{lent_columns};
ghost use Rattle.tb_frame.specs.Promise.Table.{plain_column, table_of};
ghost use Rattle.tb_supertype.specs.Columns.{CastsTo};
ghost use Rattle.tb_unpivot.specs.Promise.Unpivot.{long_table, repeated, value_column, variable_column};

use std::alloc::Global;
use tb_store::{Chunk, Chunks, Column, IsSorted, MAX_ROWS, Series, StringBuilder, StringChunk};
use tb_supertype::stack;
use tb_value::{DataType, OutOfMemory, PlSmallStr};

// A column lent so many times.
fn lent_times<'a>(
    alloc: Global,
    column: &'a Series,
    times: usize,
) -> Result<Vec<&'a Series>, OutOfMemory>
    ensures { IfOk result (λ v. lent_columns v.items ≡ replicate times column.now) }
{
    let mut lent = Vec::with_capacity(alloc, times)?;
    for i in 0..times {
        lent.push(column)?;
    }
    Ok(lent)
}

// A column with its values so many times over.
fn repeated(alloc: Global, column: &Series, times: usize) -> Result<Column, OutOfMemory>
    requires { length (values column.now) * times ≤ MAX_ROWS }
    ensures { IfOk result (λ c. plain_column c ≡ repeated times (plain_column column.now)) }
{
    let _len = column.len();
    let lent = lent_times(alloc, column, times)?;
    let name = column.name().copy(alloc)?;
    let dtype = column.dtype().copy(alloc)?;
    Ok(stack(alloc, name, dtype, &lent)?.into_column())
}

// The columns of the index, each so many times over.
fn index_columns(
    alloc: Global,
    columns: &[&Series],
    times: usize,
) -> Result<Vec<Column>, OutOfMemory>
    requires { All (λ c. length (values c.now) * times ≤ MAX_ROWS) columns.now }
    ensures { IfOk result (λ v.
        table_of v.items ≡ map (repeated times) (table_of (lent_columns columns.now))) }
{
    let mut repeats = Vec::with_capacity(alloc, columns.len())?;
    for column in columns {
        repeats.push(repeated(alloc, column, times)?)?;
    }
    Ok(repeats)
}

// The number of values of the columns together.
fn row_count(columns: &[&Series]) -> usize {
    columns
        .iter()
        .fold(0, |rows: usize, column| rows.saturating_add(column.len()))
}

// For each value of each column the column's name. Each name is put once.
fn name_chunk(alloc: Global, columns: &[&Series]) -> Result<StringChunk, OutOfMemory>
    ensures names { IfOk result (λ c. ⟦<StringChunk as Chunk>⟧.shown c
        ≡ flat_map (λ (c : Col). map (λ (d : Datum). string c.name) (values c)) (lent_columns columns.now)) }
    ensures typed { IfOk result (λ c.
        All (HasType kind.string) (⟦<StringChunk as Chunk>⟧.shown c)) }
{
    let mut names = StringBuilder::with_capacity(alloc, row_count(columns))?;
    for column in columns {
        names.push_times(alloc, column.name().as_str(), column.len())?;
    }
    names.finish(alloc)
}

fn text_type() -> DataType
    ensures { kind_of result ≡ kind.string }
{
    DataType::String
}

// The column of this name and these texts.
fn text_column(alloc: Global, name: PlSmallStr, chunk: StringChunk) -> Result<Column, OutOfMemory>
    requires few { length (texts_of chunk) ≤ MAX_ROWS }
    requires typed { All (HasType kind.string) (⟦<StringChunk as Chunk>⟧.shown chunk) }
    ensures { IfOk result (λ c. plain_column c ≡ record {
      name = name;
      kind = kind.string;
      values = ⟦<StringChunk as Chunk>⟧.shown chunk;
    }) }
{
    let mut chunks = Vec::with_capacity(alloc, 1)?;
    chunks.push(chunk)?;
    let series = Series::from_parts(name, text_type(), Chunks::StringType(chunks), IsSorted::Not);
    Ok(series.into_column())
}

fn variable_column(
    alloc: Global,
    name: PlSmallStr,
    columns: &[&Series],
) -> Result<Column, OutOfMemory>
    requires { length (concatenation (map (λ c. values c.now) columns.now)) ≤ MAX_ROWS }
    ensures { IfOk result (λ c.
        plain_column c ≡ variable_column name (table_of (lent_columns columns.now))) }
{
    let chunk = name_chunk(alloc, columns)?;
    text_column(alloc, name, chunk)
}

fn value_column(
    alloc: Global,
    name: PlSmallStr,
    dtype: DataType,
    columns: &[&Series],
) -> Result<Column, OutOfMemory>
    requires few { length (concatenation (map (λ c. values c.now) columns.now)) ≤ MAX_ROWS }
    requires typed { All (λ c. CastsTo (kind_of dtype) c.now) columns.now }
    ensures { IfOk result (λ c.
        plain_column c ≡ value_column name (kind_of dtype) (table_of (lent_columns columns.now))) }
{
    Ok(stack(alloc, name, dtype, columns)?.into_column())
}

/// The columns of the index once for each of the columns that are put one below the other, and beside them the names of
/// those and their values, cast to the type.
pub(crate) fn long_columns(
    alloc: Global,
    dtype: DataType,
    on: &[&Series],
    index: &[&Series],
    variable: &str,
    value: &str,
) -> Result<Vec<Column>, OutOfMemory>
    requires few { length (concatenation (map (λ c. values c.now) on.now)) ≤ MAX_ROWS }
    requires level { All (λ c. length (values c.now) * length on.now ≤ MAX_ROWS) index.now }
    requires typed { All (λ c. CastsTo (kind_of dtype) c.now) on.now }
    ensures { IfOk result (λ v. table_of v.items
        ≡ long_table (kind_of dtype) (table_of (lent_columns on.now)) (table_of (lent_columns index.now)) variable.now value.now) }
{
    let mut columns = index_columns(alloc, index, on.len())?;
    columns.push(variable_column(alloc, PlSmallStr::from_str(alloc, variable)?, on)?)?;
    columns.push(value_column(alloc, PlSmallStr::from_str(alloc, value)?, dtype, on)?)?;
    Ok(columns)
}
