//! Gathers by ids of rows in chunks, each through its bound.
ghost use Rattle.std.specs.Prelude.{◌≡◌, ◌≤◌, ◌↔◌, ◌∷◌, [], All, IfOk, IsSome, IsTrue, length, map};
ghost use Rattle.tb_value.specs.declared.sorted.IsSorted.{IsSorted};
ghost use Rattle.tb_value.specs.declared.sorted.IsSorted.TheVariants.{Ascending};
ghost use Rattle.tb_chunk.specs.Rows.{IsRowOf};
ghost use Rattle.tb_gather.specs.Ids.{Id, RowsStandInOrder, StandInOrder};
ghost use Rattle.tb_gather.specs.Gathered.{NameRows, opt_gathered_column};

use crate::columns::{table_with, three_numbers};
use std::alloc::Global;
use std::process::Abort;
use std::test::Fail;
use std::thread::Threads;
use tb_frame::DataFrame;
use tb_gather::{TakeChunked, TakeChunkedHorPar, ids_of};
use tb_store::{ChunkedArray, Column, Int64Type, PolarsDataType, Series};
use tb_value::{IsSorted, MAX_ROWS, NullableIdxSize, OutOfMemory, StandardChunkId};

pub(crate) fn are_present(ids: &[StandardChunkId]) -> bool
    ensures { IsTrue result ↔ All (λ (id : Id). IsSome id) ids.now }
{
    ids.iter().all(|id| !id.is_null())
}

fn is_row(row: NullableIdxSize, len: usize) -> bool
    ensures { IsTrue result ↔ IsRowOf len row }
{
    match row.row() {
        None => true,
        Some(row) => (row as usize) < len,
    }
}

fn are_rows(rows: &[NullableIdxSize], len: usize) -> bool
    ensures { IsTrue result ↔ All (IsRowOf len) rows.now }
{
    rows.iter().all(|row| is_row(*row, len))
}

// The ids of these rows of the column.
pub(crate) fn ids_in(
    alloc: Global,
    column: &Series,
    rows: &[NullableIdxSize],
) -> Result<Vec<StandardChunkId>, Fail>
    ensures named { IfOk result (λ v. NameRows v.items column.now) }
    ensures in_order { IfOk result (λ v.
        (sorted : IsSorted) → RowsStandInOrder sorted rows.now → StandInOrder sorted v.items) }
    ensures few { IfOk result (λ v. length v.items ≤ MAX_ROWS) }
{
    if column.n_chunks() > 3 || !are_rows(rows, column.len()) {
        return Err(Fail::from("no such rows"));
    }
    let ids = ids_of(alloc, column, rows)?;
    if ids.len() > MAX_ROWS {
        return Err(Fail::from("too many ids"));
    }
    Ok(ids)
}

// The ids of four rows, which ascend.
pub(crate) fn rising_ids(alloc: Global, column: &Series) -> Result<Vec<StandardChunkId>, Fail>
    ensures named { IfOk result (λ v. All (NameRows v.items) (column.now ∷ [])) }
    ensures present { IfOk result (λ v. All (λ (id : Id). IsSome id) v.items) }
    ensures in_order { IfOk result (λ v. StandInOrder Ascending v.items) }
    ensures few { IfOk result (λ v. length v.items ≤ MAX_ROWS) }
{
    let rows = [
        NullableIdxSize::some(0),
        NullableIdxSize::some(0),
        NullableIdxSize::some(1),
        NullableIdxSize::some(2),
    ];
    let ids = ids_in(alloc, column, &rows)?;
    if ids.len() == 4 && are_present(&ids) {
        Ok(ids)
    } else {
        Err(Fail::from("four ids"))
    }
}

// By both calls, through the bound alone.
fn gathered<T: TakeChunked<24> + Drop>(
    alloc: Global,
    from: &T,
    by: &[StandardChunkId],
) -> Result<T, OutOfMemory>
    requires named { All (NameRows by.now) (T.columns from.now) }
    requires present { All (λ (id : Id). IsSome id) by.now }
    requires few { length by.now ≤ MAX_ROWS }
    ensures { IfOk result (λ r.
        T.columns r ≡ map (opt_gathered_column by.now) (T.columns from.now)) }
{
    from.take_chunked_unchecked(alloc, by, IsSorted::Not)?;
    from.take_opt_chunked_unchecked(alloc, by)
}

fn side_by_side<T: TakeChunkedHorPar<24>>(
    rt: &(impl Threads + Sync),
    alloc: Global,
    from: &T,
    by: &[StandardChunkId],
) -> Result<DataFrame, OutOfMemory>
    requires named { All (NameRows by.now) (T.frame from.now) }
    requires few { length by.now ≤ MAX_ROWS }
    ensures { IfOk result (λ t. t ≡ map (opt_gathered_column by.now) (T.frame from.now)) }
{
    from._take_opt_chunked_unchecked_hor_par(rt, alloc, by)
}

// The rows of a column.
fn check_column(
    rt: &impl Abort,
    alloc: Global,
    column: &Column,
    by: &[StandardChunkId],
) -> Result<(), Fail>
    requires named { All (NameRows by.now) (column.now ∷ []) }
    requires present { All (λ (id : Id). IsSome id) by.now }
    requires few { length by.now ≤ MAX_ROWS }
{
    assert!(rt; gathered(alloc, column, by)?.len() == 4);
    Ok(())
}

// The rows of a table, by one thread and by several.
fn check_table(
    rt: &(impl Threads + Sync + Abort),
    alloc: Global,
    table: &DataFrame,
    by: &[StandardChunkId],
) -> Result<(), Fail>
    requires named { All (NameRows by.now) table.now }
    requires present { All (λ (id : Id). IsSome id) by.now }
    requires few { length by.now ≤ MAX_ROWS }
{
    assert!(rt; gathered(alloc, table, by)?.height() == 4);
    assert!(rt; side_by_side(rt, alloc, table, by)?.height() == 4);
    Ok(())
}

// Four rows of an array.
fn rows_of_array<T: PolarsDataType>(
    alloc: Global,
    series: Series,
) -> Result<ChunkedArray<T>, Fail> {
    let by = rising_ids(alloc, &series)?;
    let array: ChunkedArray<T> = ChunkedArray::from_series(series)?;
    Ok(gathered(alloc, &array, &by)?)
}

// Four rows of a column.
fn rows_of_column(rt: &impl Abort, alloc: Global, series: Series) -> Result<(), Fail> {
    let column = series.into_column();
    let by = rising_ids(alloc, column.as_materialized_series())?;
    check_column(rt, alloc, &column, &by)
}

// Four rows of the table of a column, by one thread and by several.
fn rows_of_table(
    rt: &(impl Threads + Sync + Abort),
    alloc: Global,
    series: Series,
) -> Result<(), Fail> {
    let by = rising_ids(alloc, &series)?;
    let table = table_with(alloc, series.into_column())?;
    check_table(rt, alloc, &table, &by)
}

#[test]
fn rows_of_an_array(rt: HostRuntime) -> Result<(), Fail> {
    let series = three_numbers(rt.alloc())?;
    assert!(rt; rows_of_array::<Int64Type>(rt.alloc(), series)?.len() == 4);
    Ok(())
}

#[test]
fn rows_of_a_column(rt: HostRuntime) -> Result<(), Fail> {
    rows_of_column(&rt, rt.alloc(), three_numbers(rt.alloc())?)
}

#[test]
fn rows_of_a_table(rt: HostRuntime) -> Result<(), Fail> {
    rows_of_table(&rt, rt.alloc(), three_numbers(rt.alloc())?)
}
