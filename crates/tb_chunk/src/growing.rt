//! Chunks that take up rows of others.
ghost use Rattle.std.specs.Prelude.{◌≡◌, ◌<◌, ◌≤◌, ◌+◌, ◌^◌, ◌++◌, ◌∷◌, [], IfOk, OnOk, OnErr, None, length, map, get_or, take, drop};
ghost use Rattle.tb_value.specs.Promise.Datum.{null};
ghost use Rattle.tb_view.specs.Held.{AreHeld};
ghost use Rattle.tb_view.specs.Moved.{moved_view, number_from};
ghost use Rattle.tb_view.specs.ViewArrays.{AreBases, all_buffers, view_arrays_of};

use crate::chunk::Chunk;
use std::alloc::Global;
use tb_value::OutOfMemory;

/// A chunk that takes up rows of some others, and where in it the buffers of each begin.
#[derive(Drop)]
pub struct Growing<C> {
    pub chunk: C,
    pub bases: Vec<u32>,
}

impl<C: Chunk> Growing<C> {
    /// The chunk of no value that rows of these can be put into, with room for as many as are given.
    pub fn over(alloc: Global, chunks: &[C], rows: usize) -> Result<Growing<C>, OutOfMemory>
        ensures none { IfOk result (λ g. C.shown g.chunk ≡ []) }
        ensures held { IfOk result (λ g.
            AreHeld (C.buffers g.chunk) g.bases.items (map C.buffers chunks.now)) }
        ensures views { IfOk result (λ g. C.views g.chunk ≡ []) }
        ensures buffers { IfOk result (λ g.
            C.buffers g.chunk ≡ all_buffers (view_arrays_of C.views C.buffers chunks.now)) }
        ensures bases { IfOk result (λ g.
            AreBases g.bases.items (view_arrays_of C.views C.buffers chunks.now)) }
    {
        let mut chunk = C::with_capacity(alloc, rows)?;
        let mut bases = Vec::with_capacity(alloc, chunks.len())?;
        for other in chunks {
            bases.push(chunk.buffer_count() as u32)?;
            add_buffers(alloc, &mut chunk, other)?;
        }
        Ok(Growing { chunk, bases })
    }

    /// Appends rows of one of the chunks from `from` on, as many of so many as can be taken as one block, and tells how many
    /// these are.
    pub fn append_block(
        &mut self,
        alloc: Global,
        chunks: &[C],
        chunk: usize,
        from: usize,
        count: usize,
    ) -> Result<usize, OutOfMemory>
        requires held { AreHeld (C.buffers self.old.chunk) self.old.bases.items
            (map C.buffers chunks.now) }
        requires room { length (C.shown self.old.chunk) + count < 2 ^ 63 }
        requires chunk { chunk < length chunks.now }
        requires within { from + count ≤ length (get_or (map C.shown chunks.now) chunk []) }
        ensures count { IfOk result (λ n. n ≤ count) }
        ensures shown { IfOk result (λ n.
            C.shown self.new.chunk
            ≡ C.shown self.old.chunk
            ++ take n (drop from (get_or (map C.shown chunks.now) chunk []))) }
        ensures held { AreHeld (C.buffers self.new.chunk) self.new.bases.items
            (map C.buffers chunks.now) }
        ensures views { IfOk result (λ n. C.views self.new.chunk ≡ C.views self.old.chunk
            ++ map (moved_view (get_or self.old.bases.items chunk 0)) (take n (drop from (get_or (map C.views chunks.now) chunk [])))) }
        ensures buffers { C.buffers self.new.chunk ≡ C.buffers self.old.chunk }
        ensures bases { self.new.bases.items ≡ self.old.bases.items }
    {
        let block = self.chunk.append_block(alloc, &chunks[chunk], from, count)?;
        Ok(block)
    }

    /// Appends a row of one of the chunks. After a refusal the chunk is as it was.
    pub fn push(
        &mut self,
        alloc: Global,
        chunks: &[C],
        chunk: usize,
        row: usize,
    ) -> Result<(), OutOfMemory>
        requires held { AreHeld (C.buffers self.old.chunk) self.old.bases.items
            (map C.buffers chunks.now) }
        requires room { length (C.shown self.old.chunk) < 2 ^ 63 }
        requires chunk { chunk < length chunks.now }
        requires row { row < length (get_or (map C.shown chunks.now) chunk []) }
        ensures shown { OnOk result
            (C.shown self.new.chunk
            ≡ C.shown self.old.chunk
            ++ get_or (get_or (map C.shown chunks.now) chunk []) row null
            ∷ []) }
        ensures held { AreHeld (C.buffers self.new.chunk) self.new.bases.items
            (map C.buffers chunks.now) }
        ensures views { OnOk result (C.views self.new.chunk ≡ C.views self.old.chunk
            ++ moved_view (get_or self.old.bases.items chunk 0) (get_or (get_or (map C.views chunks.now) chunk []) row None) ∷ []) }
        ensures err { OnErr result (C.shown self.new.chunk ≡ C.shown self.old.chunk) }
        ensures err_views { OnErr result (C.views self.new.chunk ≡ C.views self.old.chunk) }
        ensures buffers { C.buffers self.new.chunk ≡ C.buffers self.old.chunk }
        ensures bases { self.new.bases.items ≡ self.old.bases.items }
    {
        let other = &chunks[chunk];
        let number = number_from(other, self.bases[chunk], row);
        self.chunk.push_from(alloc, other, number, row)
    }

    /// Appends a Null. After a refusal the chunk is as it was.
    pub fn push_null(&mut self) -> Result<(), OutOfMemory>
        requires { length (C.shown self.old.chunk) < 2 ^ 63 }
        ensures shown { OnOk result (C.shown self.new.chunk ≡ C.shown self.old.chunk ++ null ∷ []) }
        ensures views { OnOk result (C.views self.new.chunk ≡ C.views self.old.chunk ++ None ∷ []) }
        ensures err { OnErr result (C.shown self.new.chunk ≡ C.shown self.old.chunk) }
        ensures err_views { OnErr result (C.views self.new.chunk ≡ C.views self.old.chunk) }
        ensures buffers { C.buffers self.new.chunk ≡ C.buffers self.old.chunk }
        ensures bases { self.new.bases.items ≡ self.old.bases.items }
    {
        self.chunk.push_null()
    }

    /// The chunk of the rows.
    pub fn finish(self) -> C
        ensures { result ≡ self.chunk }
    {
        let Growing { chunk, bases } = self;
        chunk
    }
}

// Takes up the buffers of another chunk behind those of a chunk of no value. No byte is copied.
fn add_buffers<C: Chunk>(alloc: Global, chunk: &mut C, other: &C) -> Result<(), OutOfMemory>
    requires none { C.shown chunk.old ≡ [] }
    ensures shown { C.shown chunk.new ≡ [] }
    ensures views { C.views chunk.new ≡ C.views chunk.old }
    ensures buffers { OnOk result
        (C.buffers chunk.new ≡ C.buffers chunk.old ++ C.buffers other.now) }
{
    for number in 0..other.buffer_count() {
        chunk.add_buffer(alloc, other, number as u32)?;
    }
    Ok(())
}

// The number that the buffer of a row's text gets where those of its chunk stand from number `base` on, none where it
// keeps its own.
fn number_from<C: Chunk>(chunk: &C, base: u32, row: usize) -> Option<u32>
    requires row { row < length (C.shown chunk.now) }
    requires fits { base + length (C.buffers chunk.now) < 2 ^ 32 }
    ensures { result ≡ number_from base (get_or (C.views chunk.now) row None) }
{
    if base == 0 {
        return None;
    }
    Some(base + chunk.long_buffer(row)?)
}
