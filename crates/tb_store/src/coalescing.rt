//! Columns made of two others, of which the second stands in where the first has no value.
ghost use Rattle.std.specs.Prelude.{◌≡◌, IfOk, length};
ghost use Rattle.tb_chunk.specs.Changed.{coalesced_column};
ghost use Rattle.tb_chunk.specs.Promise.Col.{values};

use crate::column::Column;
use crate::series::Series;
use std::alloc::Global;
use tb_value::{IsSorted, OutOfMemory};

impl Series {
    /// The values, and those of another series of the same type and length where they are Null, in one chunk.
    pub fn coalesce(&self, alloc: Global, other: &Series) -> Result<Series, OutOfMemory>
        requires kind { self.now.kind ≡ other.now.kind }
        requires len { length (values self.now) ≡ length (values other.now) }
        ensures { IfOk result (λ s. s ≡ coalesced_column self.now other.now) }
    {
        let _len = self.len();
        let _other_len = other.len();
        let name = self.name().copy(alloc)?;
        let dtype = self.dtype().copy(alloc)?;
        let chunks = self.chunks().coalesce(alloc, other.chunks())?;
        Ok(Series::from_parts(name, dtype, chunks, IsSorted::Not))
    }
}

impl Column {
    /// As `Series::coalesce`.
    pub fn coalesce(&self, alloc: Global, other: &Column) -> Result<Column, OutOfMemory>
        requires kind { self.now.kind ≡ other.now.kind }
        requires len { length (values self.now) ≡ length (values other.now) }
        ensures { IfOk result (λ s. s ≡ coalesced_column self.now other.now) }
    {
        let series = self
            .as_materialized_series()
            .coalesce(alloc, other.as_materialized_series())?;
        Ok(series.into_column())
    }
}
