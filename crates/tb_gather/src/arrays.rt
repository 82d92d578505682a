//! Rows of a column whose stored type is known, gathered by ids.
ghost use Rattle.std.specs.Prelude.{◌≡◌, ◌≤◌, IfOk, length, map};
ghost use Rattle.tb_chunk.specs.Col.{physical};
ghost use Rattle.tb_chunk.specs.Flag.{FlagHolds};
ghost use Rattle.tb_gather.specs.Gathered.{NameRows, named_rows, value_of_id};
ghost use Rattle.tb_gather.specs.declared.keep.Keep.TheVariants.{Used};

use crate::directions::gathered_flag;
use crate::gathering::gather_one;
use crate::keep::Keep;
use crate::take_chunked::TakeChunked;
use std::alloc::Global;
use tb_store::{ChunkedArray, PolarsDataType, Series};
use tb_value::{ChunkId, IsSorted, MAX_ROWS, OutOfMemory};

// The rows that the ids name, in one chunk, with this flag.
fn gather_array<T: PolarsDataType, const B: u64>(
    alloc: Global,
    array: &ChunkedArray<T>,
    by: &[ChunkId<B>],
    flag: IsSorted,
) -> Result<ChunkedArray<T>, OutOfMemory>
    requires named { NameRows by.now array.now }
    requires few { length by.now ≤ MAX_ROWS }
    requires flag { FlagHolds flag array.now.kind (map (value_of_id array.now.chunks) by.now) }
    ensures { IfOk result (λ a. a ≡ named_rows Used by.now flag array.now) }
{
    let _len = array.len();
    let name = array.name().copy(alloc)?;
    let dtype = array.dtype().copy(alloc)?;
    let chunks = gather_one(alloc, array.chunks(), by, Keep::Used)?;
    Ok(as_array(Series::from_parts(name, dtype, T::wrap(chunks), flag)))
}

// A series of a type that the marker accepts.
fn as_array<T: PolarsDataType>(series: Series) -> ChunkedArray<T>
    requires { physical series.kind ≡ T.Array.kind }
    ensures { result ≡ series }
{
    match ChunkedArray::from_series(series) {
        Ok(array) => array,
        Err(_) => unreachable!(),
    }
}

impl<T: PolarsDataType, const B: u64> TakeChunked<B> for ChunkedArray<T> {
    ghost use Rattle.std.specs.Prelude.{◌∷◌, []};

    ghost columns = { λ a. a ∷ [] };

    fn take_chunked_unchecked(
        &self,
        alloc: Global,
        by: &[ChunkId<B>],
        sorted: IsSorted,
    ) -> Result<ChunkedArray<T>, OutOfMemory> {
        let _len = self.len();
        let flag = gathered_flag(self.is_sorted_flag(), sorted);
        gather_array(alloc, self, by, flag)
    }

    fn take_opt_chunked_unchecked(
        &self,
        alloc: Global,
        by: &[ChunkId<B>],
    ) -> Result<ChunkedArray<T>, OutOfMemory> {
        gather_array(alloc, self, by, IsSorted::Not)
    }
}
