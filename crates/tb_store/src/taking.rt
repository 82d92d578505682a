//! Columns made of rows of others, where a row may be absent.
ghost use Rattle.std.specs.Prelude.{◌≡◌, ◌<◌, ◌≤◌, ◌∷◌, [], IfOk, length, map};
ghost use Rattle.std.specs.List.{All};
ghost use Rattle.tb_value.specs.declared.sorted.IsSorted.TheVariants.{Not};
ghost use Rattle.tb_chunk.specs.Changed.{opt_taken_rows, taken_rows};
ghost use Rattle.tb_chunk.specs.Promise.Col.{values};
ghost use Rattle.tb_chunk.specs.Rows.{IsRowOf, value_or_null};
ghost use Rattle.tb_chunk.specs.ViewArrays.{picked_of, joined_view_array};

use crate::column::Column;
use crate::series::Series;
use std::alloc::Global;
use tb_chunk::RowNumber;
use tb_value::{IdxSize, IsSorted, MAX_ROWS, NullableIdxSize, OutOfMemory};

impl Series {
    /// The values of these rows, in the order and as often as they are named, in one chunk, with the
    /// flag Not.
    pub fn take(&self, alloc: Global, rows: &[IdxSize]) -> Result<Series, OutOfMemory>
        requires rows { All (λ r. r < length (values self.now)) rows.now }
        requires few { length rows.now ≤ MAX_ROWS }
        ensures { IfOk result (λ s. s ≡ taken_rows rows.now self.now) }
    {
        self.picked(alloc, rows)
    }

    /// As `take`, where an absent row gives Null.
    pub fn take_opt(&self, alloc: Global, rows: &[NullableIdxSize]) -> Result<Series, OutOfMemory>
        requires rows { All (IsRowOf (length (values self.now))) rows.now }
        requires few { length rows.now ≤ MAX_ROWS }
        ensures { IfOk result (λ s. s ≡ opt_taken_rows rows.now self.now) }
    {
        self.picked(alloc, rows)
    }

    fn picked<R: RowNumber>(&self, alloc: Global, rows: &[R]) -> Result<Series, OutOfMemory>
        requires rows { All (λ r. IsRowOf (length (values self.now)) (R.number r)) rows.now }
        requires few { length rows.now ≤ MAX_ROWS }
        ensures { IfOk result (λ s. s ≡ record self.now {
          chunks = map (λ r. value_or_null (values self.now) (R.number r)) rows.now ∷ [];
          flag = Not;
          view_arrays = picked_of R.number rows.now (joined_view_array self.now.view_arrays) ∷ [];
        }) }
    {
        let _len = self.len();
        let name = self.name().copy(alloc)?;
        let dtype = self.dtype().copy(alloc)?;
        let chunks = self.chunks().picked(alloc, rows)?;
        Ok(Series::from_parts(name, dtype, chunks, IsSorted::Not))
    }
}

impl Column {
    /// As `Series::take`.
    pub fn take(&self, alloc: Global, rows: &[IdxSize]) -> Result<Column, OutOfMemory>
        requires rows { All (λ r. r < length (values self.now)) rows.now }
        requires few { length rows.now ≤ MAX_ROWS }
        ensures { IfOk result (λ c. c ≡ taken_rows rows.now self.now) }
    {
        let series = self.as_materialized_series().take(alloc, rows)?;
        Ok(series.into_column())
    }

    /// As `Series::take_opt`.
    pub fn take_opt(&self, alloc: Global, rows: &[NullableIdxSize]) -> Result<Column, OutOfMemory>
        requires rows { All (IsRowOf (length (values self.now))) rows.now }
        requires few { length rows.now ≤ MAX_ROWS }
        ensures { IfOk result (λ c. c ≡ opt_taken_rows rows.now self.now) }
    {
        let series = self.as_materialized_series().take_opt(alloc, rows)?;
        Ok(series.into_column())
    }
}
