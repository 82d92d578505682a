//! Columns of a table.
ghost use Rattle.std.specs.Prelude.{◌≡◌, ◌<◌, [], IfOk, length, get_or};
ghost use Rattle.tb_value.specs.Promise.Datum.{null};
ghost use Rattle.tb_value.specs.See.{lent_value, IsText};
ghost use Rattle.tb_value.specs.SeeKind.{kind_of};
ghost use Rattle.tb_chunk.specs.Promise.Col.{values};
ghost use Rattle.tb_chunk.specs.Col.{IsColumn};
ghost use Rattle.tb_cell.specs.Promise.Flag.{nulls};
ghost use Rattle.tb_chunk.specs.Flag.{FlagHolds};
ghost use Rattle.tb_chunk.specs.Lent.{in_one_chunk};
ghost use Rattle.tb_chunk.specs.Made.{lists_of, IsMade};
ghost use Rattle.tb_chunk.specs.ViewArrays.{AreViewed, HaveFewBuffers};

use crate::series::Series;
use std::alloc::Global;
use std::marker::Model;
use tb_value::{AnyValue, DataType, IsSorted, OutOfMemory, PlSmallStr, PolarsResult, ValueRef};

/// A column of a table, which is a series.
#[derive(Drop)]
pub struct Column {
    series: Series,
}

impl Model for Column {
    ghost use Rattle.tb_chunk.specs.Promise.Col.{Col};
    ghost use Rattle.tb_chunk.specs.Col.{IsColumn};
    ghost use Rattle.tb_chunk.specs.ColCode.{coded_col};

    ghost Value = { Col };

    ghost coded = { coded_col };

    ghost view = { λ c. c.series };
}

impl Series {
    /// The column that this series is.
    pub fn into_column(self) -> Column
        ensures { result ≡ self }
    {
        Column { series: self }
    }
}

impl Column {
    /// As `Series::from_chunks`.
    ///
    /// # Errors
    ///
    /// Those of `Series::from_chunks`.
    pub fn from_chunks(
        alloc: Global,
        name: &str,
        dtype: DataType,
        chunks: Vec<Vec<AnyValue>>,
    ) -> PolarsResult<Column>
        ensures { IsMade name.now (kind_of dtype) (lists_of chunks.items) result }
    {
        match Series::from_chunks(alloc, name, dtype, chunks) {
            Ok(series) => Ok(Column { series }),
            Err(error) => Err(error),
        }
    }

    /// The series that this column is.
    pub fn as_materialized_series(&self) -> &Series
        ensures { result.now ≡ self.now }
    {
        &self.series
    }

    /// The series that this column is, handed over.
    pub fn take_materialized_series(self) -> Series
        ensures { result ≡ self }
    {
        self.series
    }

    /// The name.
    pub fn name(&self) -> &PlSmallStr
        ensures { result.now ≡ self.now.name }
    {
        self.series.name()
    }

    /// The type of the values.
    pub fn dtype(&self) -> &DataType
        ensures { kind_of result.now ≡ self.now.kind }
    {
        self.series.dtype()
    }

    /// The number of chunks, which is at least 1.
    pub fn n_chunks(&self) -> usize
        ensures { result ≡ length self.now.chunks }
    {
        self.series.n_chunks()
    }

    /// The number of values of a chunk.
    pub fn chunk_len(&self, chunk: usize) -> usize
        requires { chunk < length self.now.chunks }
        ensures { result ≡ length (get_or self.now.chunks chunk []) }
    {
        self.series.chunk_len(chunk)
    }

    /// The order that the values are known to have.
    pub fn is_sorted_flag(&self) -> IsSorted
        ensures { result ≡ self.now.flag }
    {
        self.series.is_sorted_flag()
    }

    /// Changes the flag alone.
    pub fn set_sorted_flag(&mut self, flag: IsSorted)
        requires { FlagHolds flag self.old.kind (values self.old) }
        ensures { self.new ≡ record self.old { flag = flag } }
    {
        self.series.set_sorted_flag(flag);
    }

    /// The number of values that are Null.
    pub fn null_count(&self) -> usize
        ensures { result ≡ length (nulls (values self.now)) }
    {
        self.series.null_count()
    }

    /// The number of values, which is at most `MAX_ROWS`. Each has a view or none, over fewer than 2^32 buffers of all chunks.
    pub fn len(&self) -> usize
        ensures len { result ≡ length (values self.now) }
        ensures column { IsColumn self.now }
        ensures viewed { AreViewed self.now.chunks self.now.view_arrays }
        ensures few_buffers { HaveFewBuffers self.now.view_arrays }
    {
        self.series.len()
    }

    /// The value of a row, lent.
    pub fn get(&self, row: usize) -> ValueRef<'_>
        requires { row < length (values self.now) }
        ensures value { lent_value result ≡ get_or (values self.now) row null }
        ensures text { IsText result }
    {
        self.series.get(row)
    }

    /// Changes the name alone.
    pub fn rename(&mut self, name: PlSmallStr)
        ensures { self.new ≡ record self.old { name = name } }
    {
        self.series.rename(name);
    }

    /// An equal column.
    pub fn copy(&self, alloc: Global) -> Result<Column, OutOfMemory>
        ensures { IfOk result (λ c. c ≡ self.now) }
    {
        Ok(Column {
            series: self.series.copy(alloc)?,
        })
    }
    /// The same values in one chunk, with the same flag.
    pub fn rechunk(&self, alloc: Global) -> Result<Column, OutOfMemory>
        ensures { IfOk result (λ c. c ≡ in_one_chunk self.now) }
    {
        Ok(Column {
            series: self.series.rechunk(alloc)?,
        })
    }
}
