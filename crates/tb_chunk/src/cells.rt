//! Chunks of optional values of one type.
ghost use Rattle.std.specs.Prelude.{◌≡◌, ◌<◌, ◌^◌, [], None, map};
ghost use Rattle.std.proofs.Common.{arith, rules};
ghost use Rattle.std.proofs.lemmas.List.{length-map, length-replicate};
ghost use Rattle.tb_cell.specs.Shown.{or_null};

use crate::chunk::Chunk;
use std::alloc::Global;
use tb_cell::{Cell, Cells, cell_of, copy_cell};
use tb_value::{AnyValue, OutOfMemory, ValueRef};

impl<N: Cell> Chunk for Cells<N> {
    ghost shown = { λ c. map (or_null N.shows) c };

    ghost buffers = { λ _. [] };

    ghost views = { λ c. map (λ _. None) c };

    ghost kind = { N.kind };

    ghost viewed = { λ c. Prim.search (rules, length-map, length-replicate) };

    ghost few = { λ _. omega arith };

    fn len(&self) -> usize {
        self.len()
    }

    fn null_count(&self) -> usize {
        self.none_count()
    }

    fn buffer_count(&self) -> usize {
        0
    }

    fn value(&self, row: usize) -> ValueRef<'_> {
        match self.get(row) {
            None => ValueRef::Null,
            Some(cell) => cell.lend(),
        }
    }

    fn from_values(alloc: Global, values: &[AnyValue]) -> Result<Cells<N>, OutOfMemory> {
        let mut cells = Cells::with_capacity(alloc, values.len())?;
        for value in values {
            cells.push(cell_of(alloc, value)?)?;
        }
        Ok(cells)
    }

    fn copy(&self, alloc: Global) -> Result<Cells<N>, OutOfMemory> {
        let mut cells = Cells::with_capacity(alloc, self.len())?;
        let block = cells.append_values(alloc, self, 0, self.len())?;
        for row in block..self.len() {
            cells.push(copy_cell(alloc, self.get(row))?)?;
        }
        Ok(cells)
    }

    fn empty(alloc: Global) -> Cells<N> {
        Cells::new(alloc)
    }

    fn with_capacity(alloc: Global, rows: usize) -> Result<Cells<N>, OutOfMemory> {
        Cells::with_capacity(alloc, rows)
    }

    fn long_buffer(&self, _row: usize) -> Option<u32> {
        None
    }

    fn add_buffer(
        &mut self,
        _alloc: Global,
        _other: &Cells<N>,
        _number: u32,
    ) -> Result<(), OutOfMemory> {
        Ok(())
    }

    fn append_block(
        &mut self,
        alloc: Global,
        other: &Cells<N>,
        from: usize,
        count: usize,
    ) -> Result<usize, OutOfMemory> {
        let block = self.append_values(alloc, other, from, count)?;
        Ok(block)
    }

    fn push_from(
        &mut self,
        alloc: Global,
        other: &Cells<N>,
        _number: Option<u32>,
        row: usize,
    ) -> Result<(), OutOfMemory> {
        let cell = copy_cell(alloc, other.get(row))?;
        self.push(cell)
    }

    fn push_null(&mut self) -> Result<(), OutOfMemory> {
        self.push(None)
    }
}
