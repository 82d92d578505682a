//! Columns.
ghost use Rattle.std.specs.Prelude.{◌≡◌, ◌<◌, ◌≤◌, [], IfOk, length, get_or, drop, ◌+◌};
ghost use Rattle.tb_value.specs.Promise.Datum.{null};
ghost use Rattle.tb_value.specs.See.{lent_value, IsText};
ghost use Rattle.tb_value.specs.SeeKind.{kind_of};
ghost use Rattle.tb_chunk.specs.Promise.Col.{Col, values};
ghost use Rattle.tb_chunk.specs.Col.{IsColumn, physical};
ghost use Rattle.tb_chunk.specs.Changed.{part_of};
ghost use Rattle.tb_cell.specs.Promise.Flag.{nulls};
ghost use Rattle.tb_chunk.specs.Flag.{FlagHolds};
ghost use Rattle.tb_chunk.specs.Lent.{in_one_chunk};
ghost use Rattle.tb_chunk.specs.ChunkViewArrays.{chunk_view_arrays};
ghost use Rattle.tb_chunk.specs.Seen.{chunk_lists, storage};
ghost use Rattle.tb_chunk.specs.ViewArrays.{AreViewed, HaveFewBuffers};

use std::alloc::Global;
use std::marker::Model;
use tb_chunk::Chunks;
use tb_value::{DataType, IsSorted, OutOfMemory, PlSmallStr, ValueRef};

/// A column: a name, a type, one or more chunks and a flag.
pub struct Series {
    name: PlSmallStr,
    dtype: DataType,
    pub(crate) chunks: Chunks,
    flag: IsSorted,
}

// Written out, so that whoever lets a column go calls it: a derived one stands in line there, with a case for each storage.
impl Drop for Series {
    fn drop(self) {
        let Series {
            name,
            dtype,
            chunks,
            flag,
        } = self;
    }
}

impl Model for Series {
    ghost use Rattle.std.specs.Prelude.{◌≡◌};
    ghost use Rattle.tb_value.specs.SeeKind.{kind_of};
    ghost use Rattle.tb_chunk.specs.Promise.Col.{Col};
    ghost use Rattle.tb_chunk.specs.Col.{IsColumn, physical};
    ghost use Rattle.tb_chunk.specs.ColCode.{coded_col};
    ghost use Rattle.tb_chunk.specs.ChunkViewArrays.{chunk_view_arrays};
    ghost use Rattle.tb_chunk.specs.Seen.{chunk_lists, storage};
    ghost use Rattle.tb_chunk.specs.ViewArrays.{HaveFewBuffers};

    ghost Value = { Col };

    ghost coded = { coded_col };

    ghost view = { λ s. record { name = s.name; kind = kind_of s.dtype; chunks = chunk_lists s.chunks; flag = s.flag; view_arrays = chunk_view_arrays s.chunks } };

    ghost invariant = { λ s. (storage s.chunks ≡ physical (kind_of s.dtype))
        × IsColumn record { name = s.name; kind = kind_of s.dtype; chunks = chunk_lists s.chunks; flag = s.flag; view_arrays = chunk_view_arrays s.chunks }
        × HaveFewBuffers (chunk_view_arrays s.chunks) };
}

impl Series {
    /// The name.
    pub fn name(&self) -> &PlSmallStr
        ensures { result.now ≡ self.now.name }
    {
        &self.name
    }

    /// The type of the values.
    pub fn dtype(&self) -> &DataType
        ensures { kind_of result.now ≡ self.now.kind }
    {
        &self.dtype
    }

    /// The number of chunks, which is at least 1.
    pub fn n_chunks(&self) -> usize
        ensures { result ≡ length self.now.chunks }
    {
        self.chunks.count()
    }

    /// The chunks, by the type that the values are stored as.
    pub fn chunks(&self) -> &Chunks
        ensures lists { chunk_lists result.now ≡ self.now.chunks }
        ensures view_arrays { chunk_view_arrays result.now ≡ self.now.view_arrays }
        ensures storage { storage result.now ≡ physical self.now.kind }
    {
        &self.chunks
    }

    /// Changes the name alone.
    pub fn rename(&mut self, name: PlSmallStr)
        ensures { self.new ≡ record self.old { name = name } }
    {
        self.name = name;
    }

    /// The order that the values are known to have.
    pub fn is_sorted_flag(&self) -> IsSorted
        ensures { result ≡ self.now.flag }
    {
        self.flag
    }

    /// Changes the flag alone.
    pub fn set_sorted_flag(&mut self, flag: IsSorted)
        requires { FlagHolds flag self.old.kind (values self.old) }
        ensures { self.new ≡ record self.old { flag = flag } }
    {
        self.flag = flag;
    }

    /// The number of values that are Null.
    pub fn null_count(&self) -> usize
        ensures { result ≡ length (nulls (values self.now)) }
    {
        self.chunks.nulls()
    }

    /// The number of values, which is at most `MAX_ROWS`. Each has a view or none, over fewer than 2^32 buffers of all chunks.
    pub fn len(&self) -> usize
        ensures len { result ≡ length (values self.now) }
        ensures column { IsColumn self.now }
        ensures viewed { AreViewed self.now.chunks self.now.view_arrays }
        ensures few_buffers { HaveFewBuffers self.now.view_arrays }
    {
        self.chunks.rows()
    }

    /// The number of values of a chunk.
    pub fn chunk_len(&self, chunk: usize) -> usize
        requires { chunk < length self.now.chunks }
        ensures { result ≡ length (get_or self.now.chunks chunk []) }
    {
        self.chunks.rows_of(chunk)
    }

    /// The value of a row, lent. Its steps are at most the number of chunks.
    pub fn get(&self, row: usize) -> ValueRef<'_>
        requires { row < length (values self.now) }
        ensures value { lent_value result ≡ get_or (values self.now) row null }
        ensures text { IsText result }
    {
        self.chunks.value(row)
    }

    /// An equal column.
    pub fn copy(&self, alloc: Global) -> Result<Series, OutOfMemory>
        ensures { IfOk result (λ s. s ≡ self.now) }
    {
        let name = self.name.copy(alloc)?;
        let dtype = self.dtype.copy(alloc)?;
        let chunks = self.chunks.copy(alloc)?;
        Ok(Series {
            name,
            dtype,
            chunks,
            flag: self.flag,
        })
    }

    /// The same values in one chunk, with the same flag.
    pub fn rechunk(&self, alloc: Global) -> Result<Series, OutOfMemory>
        ensures { IfOk result (λ s. s ≡ in_one_chunk self.now) }
    {
        self.part(alloc, 0, self.len())
    }

    /// The `len` values from `start` on, in one chunk, with the same flag.
    pub fn part(&self, alloc: Global, start: usize, len: usize) -> Result<Series, OutOfMemory>
        requires { start + len ≤ length (values self.now) }
        ensures { IfOk result (λ s. s ≡ part_of start len self.now) }
    {
        let name = self.name.copy(alloc)?;
        let dtype = self.dtype.copy(alloc)?;
        let chunks = self.chunks.joined(alloc, start, len)?;
        Ok(Series {
            name,
            dtype,
            chunks,
            flag: self.flag,
        })
    }

    pub(crate) fn into_parts(self) -> (PlSmallStr, DataType, Chunks, IsSorted)
        ensures view { self
            ≡ record
            { name = result.0; kind = kind_of result.1; chunks = chunk_lists result.2; flag = result.3; view_arrays = chunk_view_arrays result.2 } }
        ensures storage { storage result.2 ≡ physical (kind_of result.1) }
        ensures column { IsColumn self }
        ensures few_buffers { HaveFewBuffers self.view_arrays }
    {
        let Series {
            name,
            dtype,
            chunks,
            flag,
        } = self;
        (name, dtype, chunks, flag)
    }

    /// The column of this name, type, chunks and flag. It looks at no value, and takes no memory. Where there are more chunks
    /// than one, their buffers together number fewer than 2^32, which `Chunks::has_few_buffers` tells.
    pub fn from_parts(name: PlSmallStr, dtype: DataType, chunks: Chunks, flag: IsSorted) -> Series
        requires storage { storage chunks ≡ physical (kind_of dtype) }
        requires column { IsColumn record
            { name = name; kind = kind_of dtype; chunks = chunk_lists chunks; flag = flag; view_arrays = chunk_view_arrays chunks } }
        requires few_buffers { 1 < length (chunk_lists chunks)
            → HaveFewBuffers (chunk_view_arrays chunks) }
        ensures { result
            ≡ record
            { name = name; kind = kind_of dtype; chunks = chunk_lists chunks; flag = flag; view_arrays = chunk_view_arrays chunks } }
    {
        Series {
            name,
            dtype,
            chunks,
            flag,
        }
    }
}
