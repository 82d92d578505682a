//! Columns whose stored type is known by a marker.
ghost use Rattle.std.specs.Prelude.{◌≡◌, ◌≢◌, ◌<◌, ◌≤◌, ◌+◌, ◌↔◌, [], IfOk, IsTrue, MatchResult, length, get_or, map};
ghost use Rattle.tb_value.specs.Promise.Datum.{null};
ghost use Rattle.tb_value.specs.See.{lent_value, IsText};
ghost use Rattle.tb_value.specs.SeeKind.{kind_of};
ghost use Rattle.tb_value.specs.declared.error.PolarsError.TheVariants.{SchemaMismatch};
ghost use Rattle.tb_value.specs.declared.sorted.IsSorted.TheVariants.{Ascending, Descending};
ghost use Rattle.tb_chunk.specs.Promise.Col.{values};
ghost use Rattle.tb_chunk.specs.Col.{physical, IsColumn};
ghost use Rattle.tb_chunk.specs.Changed.{part_of, sliced_rows};
ghost use Rattle.tb_cell.specs.Promise.Flag.{nulls};
ghost use Rattle.tb_chunk.specs.Flag.{FlagHolds, IsOrdered};
ghost use Rattle.tb_chunk.specs.Promise.Fresh.{fresh_view_arrays};
ghost use Rattle.tb_chunk.specs.Lent.{in_one_chunk};
ghost use Rattle.tb_chunk.specs.Made.{lists_of, IsArranged};
ghost use Rattle.tb_cell.specs.Promise.Order.{order_of};
ghost use Rattle.tb_chunk.specs.ViewArrays.{view_arrays_of, AreViewed, HaveFewBuffers};

use crate::data_type::PolarsDataType;
use crate::series::Series;
use std::alloc::Global;
use std::marker::Model;
use tb_chunk::{
    Chunk, copy_chunks, join_one, keeps_order, nulls_in, rows_in, slice_offsets, value_in,
};
use tb_value::{
    AnyValue, DataType, IsSorted, OutOfMemory, PlSmallStr, PolarsError, PolarsResult, ValueRef,
};

/// A column of a type that the marker accepts.
#[derive(Drop)]
pub struct ChunkedArray<T: PolarsDataType> {
    name: PlSmallStr,
    dtype: DataType,
    pub(crate) chunks: Vec<T::Array>,
    flag: IsSorted,
}

impl<T: PolarsDataType> Model for ChunkedArray<T> {
    ghost use Rattle.std.specs.Prelude.{◌≡◌, map};
    ghost use Rattle.tb_value.specs.SeeKind.{kind_of};
    ghost use Rattle.tb_chunk.specs.Promise.Col.{Col};
    ghost use Rattle.tb_chunk.specs.Col.{IsColumn, physical};
    ghost use Rattle.tb_chunk.specs.ColCode.{coded_col};
    ghost use Rattle.tb_chunk.specs.ViewArrays.{view_arrays_of, HaveFewBuffers};

    ghost Value = { Col };

    ghost coded = { coded_col };

    ghost view = { λ s. record { name = s.name; kind = kind_of s.dtype; chunks = map T.Array.shown s.chunks.items; flag = s.flag; view_arrays = view_arrays_of T.Array.views T.Array.buffers s.chunks.items } };

    ghost invariant = { λ s. (physical (kind_of s.dtype) ≡ T.Array.kind)
        × IsColumn record { name = s.name; kind = kind_of s.dtype; chunks = map T.Array.shown s.chunks.items; flag = s.flag; view_arrays = view_arrays_of T.Array.views T.Array.buffers s.chunks.items }
        × HaveFewBuffers (view_arrays_of T.Array.views T.Array.buffers s.chunks.items) };
}

impl<T: PolarsDataType> ChunkedArray<T> {
    /// The column, if the marker accepts its type. It takes no memory.
    ///
    /// # Errors
    ///
    /// SchemaMismatch where the marker doesn't accept the type.
    pub fn from_series(series: Series) -> PolarsResult<ChunkedArray<T>>
        ensures { MatchResult result (λ a. (a ≡ series) × (physical series.kind ≡ T.Array.kind))
            (λ e. (e ≡ SchemaMismatch) × (physical series.kind ≢ T.Array.kind)) }
    {
        let (name, dtype, chunks, flag) = series.into_parts();
        match T::unwrap(chunks) {
            Some(chunks) => Ok(ChunkedArray {
                name,
                dtype,
                chunks,
                flag,
            }),
            None => Err(PolarsError::SchemaMismatch),
        }
    }

    /// As `Series::from_chunks`, of a type that the marker accepts.
    ///
    /// # Errors
    ///
    /// 1 SchemaMismatch where the marker doesn't accept the type, or a value is not of the type,
    /// 2 TooManyRows where the values number more than `MAX_ROWS`, and OutOfMemory.
    pub fn from_chunks(
        alloc: Global,
        name: &str,
        dtype: DataType,
        chunks: Vec<Vec<AnyValue>>,
    ) -> PolarsResult<ChunkedArray<T>>
        ensures { IsArranged name.now (kind_of dtype) T.Array.kind (lists_of chunks.items)
            (fresh_view_arrays (lists_of chunks.items)) result }
    {
        if !T::accepts(&dtype) {
            return Err(PolarsError::SchemaMismatch);
        }
        ChunkedArray::from_series(Series::from_chunks(alloc, name, dtype, chunks)?)
    }

    /// The series of this column. It takes no memory.
    pub fn into_series(self) -> Series
        ensures { result ≡ self }
    {
        let ChunkedArray {
            name,
            dtype,
            chunks,
            flag,
        } = self;
        Series::from_parts(name, dtype, T::wrap(chunks), flag)
    }

    /// The name.
    pub fn name(&self) -> &PlSmallStr
        ensures { result.now ≡ self.now.name }
    {
        &self.name
    }

    /// The type of the values.
    pub fn dtype(&self) -> &DataType
        ensures { kind_of result.now ≡ self.now.kind }
    {
        &self.dtype
    }

    /// The number of chunks, which is at least 1.
    pub fn n_chunks(&self) -> usize
        ensures { result ≡ length self.now.chunks }
    {
        self.chunks.len()
    }

    /// The chunks.
    pub fn chunks(&self) -> &[T::Array]
        ensures shown { map T.Array.shown result.now ≡ self.now.chunks }
        ensures view_arrays { view_arrays_of T.Array.views T.Array.buffers result.now
            ≡ self.now.view_arrays }
    {
        &self.chunks
    }

    /// Changes the name alone.
    pub fn rename(&mut self, name: PlSmallStr)
        ensures { self.new ≡ record self.old { name = name } }
    {
        self.name = name;
    }

    /// The order that the values are known to have.
    pub fn is_sorted_flag(&self) -> IsSorted
        ensures { result ≡ self.now.flag }
    {
        self.flag
    }

    /// Changes the flag alone.
    pub fn set_sorted_flag(&mut self, flag: IsSorted)
        requires { FlagHolds flag self.old.kind (values self.old) }
        ensures { self.new ≡ record self.old { flag = flag } }
    {
        self.flag = flag;
    }

    /// As `Series::is_ascending`.
    pub fn is_ascending(&self) -> bool
        ensures { IsTrue result ↔ FlagHolds Ascending self.now.kind (values self.now) }
    {
        self.is_ordered(false)
    }

    /// As `Series::is_descending`.
    pub fn is_descending(&self) -> bool
        ensures { IsTrue result ↔ FlagHolds Descending self.now.kind (values self.now) }
    {
        self.is_ordered(true)
    }

    fn is_ordered(&self, descending: bool) -> bool
        ensures { IsTrue result ↔ IsOrdered (order_of descending) self.now.kind (values self.now) }
    {
        let _len = self.len();
        self.dtype().is_key() && keeps_order(self.chunks(), descending)
    }

    /// The number of values that are Null.
    pub fn null_count(&self) -> usize
        ensures { result ≡ length (nulls (values self.now)) }
    {
        nulls_in(&self.chunks)
    }

    /// The number of values, which is at most `MAX_ROWS`. Each has a view or none, over fewer than 2^32 buffers of all chunks.
    pub fn len(&self) -> usize
        ensures len { result ≡ length (values self.now) }
        ensures column { IsColumn self.now }
        ensures kind { physical self.now.kind ≡ T.Array.kind }
        ensures viewed { AreViewed self.now.chunks self.now.view_arrays }
        ensures few_buffers { HaveFewBuffers self.now.view_arrays }
    {
        rows_in(&self.chunks)
    }

    /// The number of values of a chunk.
    pub fn chunk_len(&self, chunk: usize) -> usize
        requires { chunk < length self.now.chunks }
        ensures { result ≡ length (get_or self.now.chunks chunk []) }
    {
        self.chunks[chunk].len()
    }

    /// The value of a row, lent. Its steps are at most the number of chunks.
    pub fn get(&self, row: usize) -> ValueRef<'_>
        requires { row < length (values self.now) }
        ensures value { lent_value result ≡ get_or (values self.now) row null }
        ensures text { IsText result }
    {
        value_in(&self.chunks, row)
    }

    /// An equal column.
    pub fn copy(&self, alloc: Global) -> Result<ChunkedArray<T>, OutOfMemory>
        ensures { IfOk result (λ a. a ≡ self.now) }
    {
        let name = self.name.copy(alloc)?;
        let dtype = self.dtype.copy(alloc)?;
        let chunks = copy_chunks(alloc, &self.chunks)?;
        Ok(ChunkedArray {
            name,
            dtype,
            chunks,
            flag: self.flag,
        })
    }

    /// The same values in one chunk, with the same flag.
    pub fn rechunk(&self, alloc: Global) -> Result<ChunkedArray<T>, OutOfMemory>
        ensures { IfOk result (λ a. a ≡ in_one_chunk self.now) }
    {
        self.part(alloc, 0, self.len())
    }

    /// As `Series::slice`.
    pub fn slice(
        &self,
        alloc: Global,
        offset: i64,
        len: usize,
    ) -> Result<ChunkedArray<T>, OutOfMemory>
        ensures { IfOk result (λ a. a ≡ sliced_rows offset len self.now) }
    {
        let (start, count) = slice_offsets(offset, len, self.len());
        self.part(alloc, start, count)
    }

    // As `Series::part`.
    fn part(&self, alloc: Global, start: usize, len: usize) -> Result<ChunkedArray<T>, OutOfMemory>
        requires { start + len ≤ length (values self.now) }
        ensures { IfOk result (λ a. a ≡ part_of start len self.now) }
    {
        let name = self.name.copy(alloc)?;
        let dtype = self.dtype.copy(alloc)?;
        let chunks = join_one(alloc, &self.chunks, start, len)?;
        Ok(ChunkedArray {
            name,
            dtype,
            chunks,
            flag: self.flag,
        })
    }
}
