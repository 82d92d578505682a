//! Rows of a series and of a column, gathered by ids.
ghost use Rattle.std.specs.Prelude.{◌≡◌, ◌≤◌, All, IfOk, length, map};
ghost use Rattle.tb_chunk.specs.Flag.{FlagHolds};
ghost use Rattle.tb_gather.specs.Ids.{AreAllInOrder};
ghost use Rattle.tb_gather.specs.Gathered.{NameRows, gathered_flag, named_rows, value_of_id};

use crate::directions::gathered_flag;
use crate::gathering::gather_chunks;
use crate::keep::Keep;
use crate::take_chunked::TakeChunked;
use std::alloc::Global;
use tb_store::{Column, Series};
use tb_value::{ChunkId, IsSorted, MAX_ROWS, OutOfMemory};

// The rows that the ids name, in one chunk, with this flag.
fn gather_series<const B: u64>(
    alloc: Global,
    series: &Series,
    by: &[ChunkId<B>],
    flag: IsSorted,
    keep: Keep,
) -> Result<Series, OutOfMemory>
    requires named { NameRows by.now series.now }
    requires few { length by.now ≤ MAX_ROWS }
    requires flag { FlagHolds flag series.now.kind (map (value_of_id series.now.chunks) by.now) }
    ensures { IfOk result (λ s. s ≡ named_rows keep by.now flag series.now) }
{
    let _len = series.len();
    let name = series.name().copy(alloc)?;
    let dtype = series.dtype().copy(alloc)?;
    let chunks = gather_chunks(alloc, series.chunks(), by, keep)?;
    Ok(Series::from_parts(name, dtype, chunks, flag))
}

/// The rows of a column that the ids name, in one chunk over the buffers that are kept, with the flag that the column's and
/// `sorted` make.
pub(crate) fn gather_column<const B: u64>(
    alloc: Global,
    column: &Column,
    by: &[ChunkId<B>],
    sorted: IsSorted,
    keep: Keep,
) -> Result<Column, OutOfMemory>
    requires named { NameRows by.now column.now }
    requires in_order { AreAllInOrder sorted by.now }
    requires few { length by.now ≤ MAX_ROWS }
    ensures { IfOk result (λ c.
        c ≡ named_rows keep by.now (gathered_flag column.now.flag sorted) column.now) }
{
    let _len = column.len();
    let flag = gathered_flag(column.is_sorted_flag(), sorted);
    Ok(gather_series(alloc, column.as_materialized_series(), by, flag, keep)?.into_column())
}

impl<const B: u64> TakeChunked<B> for Series {
    ghost use Rattle.std.specs.Prelude.{◌∷◌, []};

    ghost columns = { λ s. s ∷ [] };

    fn take_chunked_unchecked(
        &self,
        alloc: Global,
        by: &[ChunkId<B>],
        sorted: IsSorted,
    ) -> Result<Series, OutOfMemory> {
        let _len = self.len();
        let flag = gathered_flag(self.is_sorted_flag(), sorted);
        gather_series(alloc, self, by, flag, Keep::Used)
    }

    fn take_opt_chunked_unchecked(
        &self,
        alloc: Global,
        by: &[ChunkId<B>],
    ) -> Result<Series, OutOfMemory> {
        gather_series(alloc, self, by, IsSorted::Not, Keep::Used)
    }
}

impl<const B: u64> TakeChunked<B> for Column {
    ghost use Rattle.std.specs.Prelude.{◌∷◌, []};

    ghost columns = { λ c. c ∷ [] };

    fn take_chunked_unchecked(
        &self,
        alloc: Global,
        by: &[ChunkId<B>],
        sorted: IsSorted,
    ) -> Result<Column, OutOfMemory> {
        let series = self.as_materialized_series();
        Ok(
            series
                .take_chunked_unchecked(alloc, by, sorted)?
                .into_column(),
        )
    }

    fn take_opt_chunked_unchecked(
        &self,
        alloc: Global,
        by: &[ChunkId<B>],
    ) -> Result<Column, OutOfMemory> {
        let series = self.as_materialized_series();
        Ok(series.take_opt_chunked_unchecked(alloc, by)?.into_column())
    }
}
