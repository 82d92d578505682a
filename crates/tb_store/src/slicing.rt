//! Parts of columns.
ghost use Rattle.std.specs.Prelude.{◌≡◌, IfOk};
ghost use Rattle.tb_chunk.specs.Changed.{sliced_rows};

use crate::column::Column;
use crate::series::Series;
use std::alloc::Global;
use tb_chunk::slice_offsets;
use tb_value::OutOfMemory;

impl Series {
    /// The values at the `len` places from `offset` on, as far as there are such places, in one chunk,
    /// with the same flag. A negative offset counts from the end.
    pub fn slice(&self, alloc: Global, offset: i64, len: usize) -> Result<Series, OutOfMemory>
        ensures { IfOk result (λ s. s ≡ sliced_rows offset len self.now) }
    {
        let (start, count) = slice_offsets(offset, len, self.len());
        self.part(alloc, start, count)
    }
}

impl Column {
    /// As `Series::slice`.
    pub fn slice(&self, alloc: Global, offset: i64, len: usize) -> Result<Column, OutOfMemory>
        ensures { IfOk result (λ c. c ≡ sliced_rows offset len self.now) }
    {
        let series = self.as_materialized_series().slice(alloc, offset, len)?;
        Ok(series.into_column())
    }
}
