//! Runs of bytes, of lists and of structs.
ghost use Rattle.std.specs.Prelude.{◌<◌, [], None, map};
ghost use Rattle.std.proofs.Common.{arith, rules};
ghost use Rattle.std.proofs.lemmas.List.{length-map, length-replicate};
ghost use Rattle.tb_value.specs.Promise.Datum.{binary, list, struct, items_of};
ghost use Rattle.tb_value.specs.Promise.Kind as kinds;
ghost use Rattle.tb_cell.specs.Shown.{or_null};
ghost use Rattle.tb_view.specs.View.{texts};

use crate::chunk::Chunk;
use std::alloc::Global;
use tb_cell::{Cells, FieldValues};
use tb_value::{AnyValue, OutOfMemory, ValueRef, Values};
use tb_view::ViewChunk;

/// Optional bytes, each as a view over shared buffers.
#[derive(Drop)]
pub struct BinaryChunk {
    pub(crate) inner: ViewChunk,
}

impl Chunk for BinaryChunk {
    ghost shown = { λ c. map (or_null binary) (texts c.inner.buffers.items c.inner.views.items) };

    ghost buffers = { λ c. c.inner.buffers.items };

    ghost views = { λ c. c.inner.views.items };

    ghost kind = { kinds.binary };

    ghost viewed = { λ c. Prim.search (rules, length-map, length-replicate) };

    ghost few = { λ c. c.inner.few };

    fn len(&self) -> usize {
        self.inner.len()
    }

    fn null_count(&self) -> usize {
        self.inner.null_count()
    }

    fn buffer_count(&self) -> usize {
        self.inner.buffers().len()
    }

    fn value(&self, row: usize) -> ValueRef<'_> {
        match self.inner.get(row) {
            None => ValueRef::Null,
            Some(bytes) => ValueRef::Binary(bytes),
        }
    }

    fn from_values(alloc: Global, values: &[AnyValue]) -> Result<BinaryChunk, OutOfMemory> {
        Ok(BinaryChunk {
            inner: ViewChunk::from_values(alloc, values)?,
        })
    }

    fn copy(&self, alloc: Global) -> Result<BinaryChunk, OutOfMemory> {
        Ok(BinaryChunk {
            inner: self.inner.copy(alloc)?,
        })
    }

    fn empty(alloc: Global) -> BinaryChunk {
        BinaryChunk {
            inner: ViewChunk::empty(alloc),
        }
    }

    fn with_capacity(alloc: Global, rows: usize) -> Result<BinaryChunk, OutOfMemory> {
        Ok(BinaryChunk {
            inner: ViewChunk::with_capacity(alloc, rows)?,
        })
    }

    fn long_buffer(&self, row: usize) -> Option<u32> {
        self.inner.long_buffer(row)
    }

    fn add_buffer(
        &mut self,
        alloc: Global,
        other: &BinaryChunk,
        number: u32,
    ) -> Result<(), OutOfMemory> {
        self.inner.add_buffer(alloc, &other.inner, number)
    }

    fn append_block(
        &mut self,
        _alloc: Global,
        _other: &BinaryChunk,
        _from: usize,
        _count: usize,
    ) -> Result<usize, OutOfMemory> {
        Ok(0)
    }

    fn push_from(
        &mut self,
        _alloc: Global,
        other: &BinaryChunk,
        number: Option<u32>,
        row: usize,
    ) -> Result<(), OutOfMemory> {
        self.inner.push_from(&other.inner, number, row)
    }

    fn push_null(&mut self) -> Result<(), OutOfMemory> {
        self.inner.push_null()
    }
}

/// Optional lists.
#[derive(Drop)]
pub struct ListChunk {
    pub inner: Cells<Values>,
}

impl Chunk for ListChunk {
    ghost shown = { λ c. map (or_null (λ vs. list (items_of vs))) c.inner };

    ghost buffers = { λ _. [] };

    ghost views = { λ c. map (λ _. None) c.inner };

    ghost kind = { kinds.list kinds.null };

    ghost viewed = { λ c. Prim.search (rules, length-map, length-replicate) };

    ghost few = { λ _. omega arith };

    fn len(&self) -> usize {
        self.inner.len()
    }

    fn null_count(&self) -> usize {
        self.inner.null_count()
    }

    fn buffer_count(&self) -> usize {
        0
    }

    fn value(&self, row: usize) -> ValueRef<'_> {
        self.inner.value(row)
    }

    fn from_values(alloc: Global, values: &[AnyValue]) -> Result<ListChunk, OutOfMemory> {
        Ok(ListChunk {
            inner: Cells::from_values(alloc, values)?,
        })
    }

    fn copy(&self, alloc: Global) -> Result<ListChunk, OutOfMemory> {
        Ok(ListChunk {
            inner: self.inner.copy(alloc)?,
        })
    }

    fn empty(alloc: Global) -> ListChunk {
        ListChunk {
            inner: Cells::empty(alloc),
        }
    }

    fn with_capacity(alloc: Global, rows: usize) -> Result<ListChunk, OutOfMemory> {
        Ok(ListChunk {
            inner: Cells::with_capacity(alloc, rows)?,
        })
    }

    fn long_buffer(&self, row: usize) -> Option<u32> {
        self.inner.long_buffer(row)
    }

    fn add_buffer(
        &mut self,
        _alloc: Global,
        _other: &ListChunk,
        _number: u32,
    ) -> Result<(), OutOfMemory> {
        Ok(())
    }

    fn append_block(
        &mut self,
        alloc: Global,
        other: &ListChunk,
        from: usize,
        count: usize,
    ) -> Result<usize, OutOfMemory> {
        self.inner.append_block(alloc, &other.inner, from, count)
    }

    fn push_from(
        &mut self,
        alloc: Global,
        other: &ListChunk,
        number: Option<u32>,
        row: usize,
    ) -> Result<(), OutOfMemory> {
        self.inner.push_from(alloc, &other.inner, number, row)
    }

    fn push_null(&mut self) -> Result<(), OutOfMemory> {
        self.inner.push_null()
    }
}

/// Optional structs.
#[derive(Drop)]
pub struct StructChunk {
    pub inner: Cells<FieldValues>,
}

impl Chunk for StructChunk {
    ghost shown = { λ c. map (or_null (λ s. struct (items_of s.values))) c.inner };

    ghost buffers = { λ _. [] };

    ghost views = { λ c. map (λ _. None) c.inner };

    ghost kind = { kinds.struct kinds.end };

    ghost viewed = { λ c. Prim.search (rules, length-map, length-replicate) };

    ghost few = { λ _. omega arith };

    fn len(&self) -> usize {
        self.inner.len()
    }

    fn null_count(&self) -> usize {
        self.inner.null_count()
    }

    fn buffer_count(&self) -> usize {
        0
    }

    fn value(&self, row: usize) -> ValueRef<'_> {
        self.inner.value(row)
    }

    fn from_values(alloc: Global, values: &[AnyValue]) -> Result<StructChunk, OutOfMemory> {
        Ok(StructChunk {
            inner: Cells::from_values(alloc, values)?,
        })
    }

    fn copy(&self, alloc: Global) -> Result<StructChunk, OutOfMemory> {
        Ok(StructChunk {
            inner: self.inner.copy(alloc)?,
        })
    }

    fn empty(alloc: Global) -> StructChunk {
        StructChunk {
            inner: Cells::empty(alloc),
        }
    }

    fn with_capacity(alloc: Global, rows: usize) -> Result<StructChunk, OutOfMemory> {
        Ok(StructChunk {
            inner: Cells::with_capacity(alloc, rows)?,
        })
    }

    fn long_buffer(&self, row: usize) -> Option<u32> {
        self.inner.long_buffer(row)
    }

    fn add_buffer(
        &mut self,
        _alloc: Global,
        _other: &StructChunk,
        _number: u32,
    ) -> Result<(), OutOfMemory> {
        Ok(())
    }

    fn append_block(
        &mut self,
        alloc: Global,
        other: &StructChunk,
        from: usize,
        count: usize,
    ) -> Result<usize, OutOfMemory> {
        self.inner.append_block(alloc, &other.inner, from, count)
    }

    fn push_from(
        &mut self,
        alloc: Global,
        other: &StructChunk,
        number: Option<u32>,
        row: usize,
    ) -> Result<(), OutOfMemory> {
        self.inner.push_from(alloc, &other.inner, number, row)
    }

    fn push_null(&mut self) -> Result<(), OutOfMemory> {
        self.inner.push_null()
    }
}
