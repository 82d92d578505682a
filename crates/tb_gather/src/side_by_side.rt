//! Rows of a table, gathered from its columns side by side.
ghost use Rattle.std.specs.Prelude.{◌≡◌, ◌≤◌, All, IfOk, IsSome, length, map};
ghost use Rattle.tb_chunk.specs.Promise.Col.{Col, values};
ghost use Rattle.tb_chunk.specs.Lent.{lent_columns};
ghost use Rattle.tb_chunk.specs.Rows.{IsRowOf};
ghost use Rattle.tb_gather.specs.Ids.{AreAllInOrder, Id, AreAllRowsInOrder, StandInOrder};
ghost use Rattle.tb_gather.specs.Gathered.{NameRows, gathered_column, gathered_flag, named_rows, opt_gathered_column, gathered_rows};

use crate::keep::Keep;
use crate::lent::lend;
use crate::picking::pick_column;
use crate::row_of::RowOf;
use crate::series::gather_column;
use crate::tables::made_table;
use rayon::prelude::*;
use std::alloc::Global;
use std::thread::Threads;
use tb_frame::{DataFrame, IntoDf};
use tb_store::Column;
use tb_value::{ChunkId, IsSorted, JoinPair, MAX_ROWS, OutOfMemory};

// A column of fewer rows is gathered in less time than a thread takes to start.
const WORTH_A_THREAD: usize = 8_192;

/// A table whose columns are gathered from side by side, by threads where there are many rows to gather.
pub trait TakeChunkedHorPar<const B: u64>: IntoDf {
    /// As `TakeChunked::take_chunked_unchecked`.
    final fn _take_chunked_unchecked_hor_par(
        &self,
        rt: &(impl Threads + Sync),
        alloc: Global,
        idx: &[ChunkId<B>],
        sorted: IsSorted,
    ) -> Result<DataFrame, OutOfMemory>
        requires present { All (λ (id : Id). IsSome id) idx.now }
        requires named { All (NameRows idx.now) (Self.frame self.now) }
        requires in_order { StandInOrder sorted idx.now }
        requires few { length idx.now ≤ MAX_ROWS }
        ensures { IfOk result (λ t.
            t ≡ map (gathered_column idx.now sorted) (Self.frame self.now)) }
    {
        let lent = lend(alloc, self.to_df().get_columns())?;
        let columns = gather_side_by_side(rt, alloc, &lent, idx, sorted, Keep::Used)?;
        made_table(alloc, columns)
    }

    /// As `TakeChunked::take_opt_chunked_unchecked`.
    final fn _take_opt_chunked_unchecked_hor_par(
        &self,
        rt: &(impl Threads + Sync),
        alloc: Global,
        idx: &[ChunkId<B>],
    ) -> Result<DataFrame, OutOfMemory>
        requires named { All (NameRows idx.now) (Self.frame self.now) }
        requires few { length idx.now ≤ MAX_ROWS }
        ensures { IfOk result (λ t. t ≡ map (opt_gathered_column idx.now) (Self.frame self.now)) }
    {
        let not = IsSorted::Not;
        let lent = lend(alloc, self.to_df().get_columns())?;
        let columns = gather_side_by_side(rt, alloc, &lent, idx, not, Keep::Used)?;
        made_table(alloc, columns)
    }
}

impl<const B: u64> TakeChunkedHorPar<B> for DataFrame {}

// How many columns a thread gathers at least.
fn columns_a_thread(columns: usize, rows: usize) -> usize {
    if rows < WORTH_A_THREAD { columns } else { 1 }
}

/// The rows of each column that the ids name, over the buffers that are kept, with the flag that the column's and `sorted` make.
pub(crate) fn gather_side_by_side<const B: u64>(
    rt: &(impl Threads + Sync),
    alloc: Global,
    columns: &[&Column],
    by: &[ChunkId<B>],
    sorted: IsSorted,
    keep: Keep,
) -> Result<Vec<Column>, OutOfMemory>
    requires named { All (NameRows by.now) (lent_columns columns.now) }
    requires in_order { AreAllInOrder sorted by.now }
    requires few { length by.now ≤ MAX_ROWS }
    ensures { IfOk result (λ v.
        v.items
        ≡ map (λ c. named_rows keep by.now (gathered_flag c.flag sorted) c)
        (lent_columns columns.now)) }
{
    columns
        .par_iter()
        .with_min_len(columns_a_thread(columns.len(), by.len()))
        .map(
            |column: &&Column| -> Result<Column, OutOfMemory>
                requires named { NameRows by.now column.now.now }
                requires in_order { AreAllInOrder sorted by.now }
                requires few { length by.now ≤ MAX_ROWS }
                ensures { IfOk result (λ c.
                    c
                    ≡ named_rows keep by.entry.now (gathered_flag column.now.now.flag sorted)
                    column.now.now) }
            { gather_column(alloc, column, by, sorted, keep) },
        )
        .collect(rt, alloc)?
}

/// The rows of each column that the pairs name, with the flag that the column's and `sorted` make.
pub(crate) fn pick_side_by_side<S: RowOf<JoinPair>>(
    rt: &(impl Threads + Sync),
    alloc: Global,
    columns: &[&Column],
    pairs: &[JoinPair],
    sorted: IsSorted,
) -> Result<Vec<Column>, OutOfMemory>
    requires rows { All (λ (c : Col). All (IsRowOf (length (values c))) (map S.number pairs.now))
        (lent_columns columns.now) }
    requires in_order { AreAllRowsInOrder sorted (map S.number pairs.now) }
    requires few { length pairs.now ≤ MAX_ROWS }
    ensures { IfOk result (λ v.
        v.items ≡ map (gathered_rows (map S.number pairs.now) sorted) (lent_columns columns.now)) }
{
    columns
        .par_iter()
        .with_min_len(columns_a_thread(columns.len(), pairs.len()))
        .map(
            |column: &&Column| -> Result<Column, OutOfMemory>
                requires rows { All (IsRowOf (length (values column.now.now)))
                    (map S.number pairs.now) }
                requires in_order { AreAllRowsInOrder sorted (map S.number pairs.now) }
                requires few { length pairs.now ≤ MAX_ROWS }
                ensures { IfOk result (λ c.
                    c ≡ gathered_rows (map S.number pairs.entry.now) sorted column.now.now) }
            { pick_column::<S>(alloc, column, pairs, sorted) },
        )
        .collect(rt, alloc)?
}
