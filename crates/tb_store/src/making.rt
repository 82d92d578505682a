//! Columns made of values, and of typed chunks.
ghost use Rattle.tb_value.specs.SeeKind.{kind_of};
ghost use Rattle.std.specs.Prelude.{◌≡◌};
ghost use Rattle.tb_chunk.specs.Col.{physical};
ghost use Rattle.tb_chunk.specs.Made.{lists_of, IsMade, IsArranged, IsTyped};
ghost use Rattle.tb_chunk.specs.RunLayout.{IsMadeOfRuns, data_runs};
ghost use Rattle.tb_chunk.specs.ChunkViewArrays.{chunk_view_arrays};
ghost use Rattle.tb_chunk.specs.Seen.{chunk_lists, storage};

use crate::series::Series;
use std::alloc::Global;
use tb_chunk::{Chunks, physical_of};
use tb_value::{AnyValue, DataType, IsSorted, PlSmallStr, PolarsError, PolarsResult};

impl Series {
    /// The column of this name and type and of these values, with the flag Not. No chunk at all makes
    /// one empty chunk.
    ///
    /// # Errors
    ///
    /// 1 SchemaMismatch where a value is not of the type, 2 TooManyRows where the values number more
    /// than `MAX_ROWS`, and OutOfMemory.
    pub fn from_chunks(
        alloc: Global,
        name: &str,
        dtype: DataType,
        chunks: Vec<Vec<AnyValue>>,
    ) -> PolarsResult<Series>
        ensures { IsMade name.now (kind_of dtype) (lists_of chunks.items) result }
    {
        let chunks = Chunks::from_lists(alloc, &dtype, chunks)?;
        let name = PlSmallStr::from_str(alloc, name)?;
        Ok(Series::from_parts(name, dtype, chunks, IsSorted::Not))
    }

    /// The column of this name and type whose values stand in runs: each as often as its count says, in one chunk, with the flag
    /// Not. A count of 0 gives no row, but its value has to be of the type. A long text of a run stands once in the buffers.
    ///
    /// # Errors
    ///
    /// 1 SchemaMismatch where a value is not of the type, 2 TooManyRows where the counts add up to more than `MAX_ROWS`, and
    /// OutOfMemory.
    pub fn from_runs(
        alloc: Global,
        name: &str,
        dtype: DataType,
        runs: Vec<(AnyValue, u64)>,
    ) -> PolarsResult<Series>
        ensures { IsMadeOfRuns name.now (kind_of dtype) (data_runs runs.items) result }
    {
        let chunks = Chunks::from_runs(alloc, &dtype, &runs)?;
        let name = PlSmallStr::from_str(alloc, name)?;
        Ok(Series::from_parts(name, dtype, chunks, IsSorted::Not))
    }

    /// The column of these typed chunks, with the flag Not. No chunk at all makes one empty chunk,
    /// and takes memory for it.
    ///
    /// # Errors
    ///
    /// 1 SchemaMismatch where the chunks are not those by which the type is stored, or a value is not of
    /// the type, 2 TooManyRows where the values number more than `MAX_ROWS`, and OutOfMemory.
    pub fn from_arrays(
        alloc: Global,
        name: PlSmallStr,
        dtype: DataType,
        arrays: Chunks,
    ) -> PolarsResult<Series>
        ensures { IsArranged name (kind_of dtype) (storage arrays) (chunk_lists arrays)
            (chunk_view_arrays arrays) result }
    {
        if arrays.physical() != physical_of(&dtype) {
            return Err(PolarsError::SchemaMismatch);
        }
        let chunks = arrays.checked(alloc, &dtype)?;
        Ok(Series::from_parts(name, dtype, chunks, IsSorted::Not))
    }
    /// As `from_arrays`, of chunks that are known to be those of the type, and their values too: no value is looked at.
    ///
    /// # Errors
    ///
    /// TooManyRows where the values number more than `MAX_ROWS`, and OutOfMemory.
    pub fn from_typed(
        alloc: Global,
        name: PlSmallStr,
        dtype: DataType,
        arrays: Chunks,
    ) -> PolarsResult<Series>
        requires storage { storage arrays ≡ physical (kind_of dtype) }
        requires typed { IsTyped (kind_of dtype) (chunk_lists arrays) }
        ensures { IsArranged name (kind_of dtype) (storage arrays) (chunk_lists arrays)
            (chunk_view_arrays arrays) result }
    {
        let chunks = arrays.within_limits(alloc, &dtype)?;
        Ok(Series::from_parts(name, dtype, chunks, IsSorted::Not))
    }
}
