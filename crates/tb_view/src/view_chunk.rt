//! Runs of optional texts.
ghost use Rattle.std.specs.Prelude.{◌≡◌, ◌<◌, ◌^◌, ◌∷◌, ◌++◌, [], All, IfOk, IfSome, OnOk, OnErr, None, is_none, length, slice_index_or, take, drop};
ghost use Rattle.std.proofs.Props.{props};
ghost use Rattle.std.specs.List.{count_by};
ghost use Rattle.std.specs.Option.{option_map};
ghost use Rattle.tb_view.specs.Held.{StandsAt};
ghost use Rattle.tb_view.specs.Moved.{view_at_number, used_buffer};
ghost use Rattle.tb_view.specs.View.{texts, row_text, IsViewOrNone};

use crate::view::View;
use std::alloc::Global;
use tb_value::{Bytes, OutOfMemory};

/// Optional texts, each as a view over the buffers.
#[derive(Drop)]
pub struct ViewChunk {
    pub views: Vec<Option<View>>,
    pub buffers: Vec<Bytes>,
    ghost formed: { All (IsViewOrNone buffers.items) views.items } by { Prim.hlevel props },
    ghost few: { length buffers.items < 2 ^ 32 },
}

impl ViewChunk {
    /// The chunk of no row. It takes no memory yet.
    pub fn empty(alloc: Global) -> ViewChunk
        ensures views { result.views.items ≡ [] }
        ensures buffers { result.buffers.items ≡ [] }
    {
        ViewChunk {
            views: Vec::new(alloc),
            buffers: Vec::new(alloc),
        }
    }

    /// The chunk of no row, with room for as many as are given.
    pub fn with_capacity(alloc: Global, rows: usize) -> Result<ViewChunk, OutOfMemory>
        ensures views { IfOk result (λ c. c.views.items ≡ []) }
        ensures buffers { IfOk result (λ c. c.buffers.items ≡ []) }
    {
        Ok(ViewChunk {
            views: Vec::with_capacity(alloc, rows)?,
            buffers: Vec::new(alloc),
        })
    }

    /// The number of rows.
    pub fn len(&self) -> usize
        ensures { result ≡ length self.now.views.items }
    {
        self.views.len()
    }

    /// The number of rows without a text.
    pub fn null_count(&self) -> usize
        ensures { result ≡ count_by is_none self.now.views.items }
    {
        self.views.iter().filter(|view| view.is_none()).count()
    }

    /// The view of each row, none where it is Null.
    pub fn views(&self) -> &[Option<View>]
        ensures views { result.now ≡ self.now.views.items }
        ensures formed { All (IsViewOrNone self.now.buffers.items) result.now }
    {
        &self.views
    }

    /// The buffers that the views stand over.
    pub fn buffers(&self) -> &[Bytes]
        ensures { result.now ≡ self.now.buffers.items }
    {
        &self.buffers
    }

    /// The text of a row, lent.
    pub fn get(&self, row: usize) -> Option<&[u8]>
        requires { row < length self.now.views.items }
        ensures { option_map (λ t. t.now) result
            ≡ slice_index_or (texts self.now.buffers.items self.now.views.items) row None }
    {
        match &self.views[row] {
            None => None,
            Some(view) => Some(view.text(&self.buffers)),
        }
    }

    /// The number of the buffer that the text of a row lies in, none where the text is short or there is none.
    pub fn long_buffer(&self, row: usize) -> Option<u32>
        requires { row < length self.now.views.items }
        ensures buffer { result ≡ used_buffer (slice_index_or self.now.views.items row None) }
        ensures within { IfSome result (λ b. b < length self.now.buffers.items) }
    {
        match &self.views[row] {
            Some(view) if view.length > 12 => Some(view.buffer()),
            _ => None,
        }
    }

    /// The same rows. Their bytes are shared.
    pub fn copy(&self, alloc: Global) -> Result<ViewChunk, OutOfMemory>
        ensures views { IfOk result (λ c. c.views.items ≡ self.now.views.items) }
        ensures buffers { IfOk result (λ c. c.buffers.items ≡ self.now.buffers.items) }
    {
        let buffers = copy_buffers(alloc, &self.buffers)?;
        let views = Vec::from_slice(alloc, &self.views)?;
        Ok(ViewChunk { views, buffers })
    }

    /// Takes up the buffer of this number of another chunk behind its own, before there is a row, and none where the other has no
    /// such buffer. After a refusal the chunk is as it was.
    pub fn add_buffer(
        &mut self,
        alloc: Global,
        other: &ViewChunk,
        number: u32,
    ) -> Result<(), OutOfMemory>
        requires none { self.old.views.items ≡ [] }
        ensures views { self.new.views.items ≡ [] }
        ensures buffers { OnOk result
            (self.new.buffers.items
            ≡ self.old.buffers.items ++ take 1 (drop number other.now.buffers.items)) }
        ensures err { OnErr result (self.new.buffers.items ≡ self.old.buffers.items) }
    {
        if number as usize >= other.buffers.len() {
            return Ok(());
        }
        if self.buffers.len() >= u32::MAX as usize {
            return Err(OutOfMemory);
        }
        let buffer = other.buffers[number as usize].copy(alloc)?;
        self.buffers.push(buffer)?;
        Ok(())
    }

    /// Appends a row of another chunk. The buffer of its long text stands in this one under `number`, and under its own
    /// number where there is none. After a refusal the chunk is as it was.
    pub fn push_from(
        &mut self,
        other: &ViewChunk,
        number: Option<u32>,
        row: usize,
    ) -> Result<(), OutOfMemory>
        requires row { row < length other.now.views.items }
        requires held { StandsAt self.old.buffers.items number other.now.buffers.items
            (slice_index_or other.now.views.items row None) }
        ensures ok { OnOk result (texts self.new.buffers.items self.new.views.items ≡ texts self.old.buffers.items self.old.views.items
            ++ slice_index_or (texts other.now.buffers.items other.now.views.items) row None ∷ []) }
        ensures views { OnOk result
            (self.new.views.items
            ≡ self.old.views.items
            ++ view_at_number number (slice_index_or other.now.views.items row None)
            ∷ []) }
        ensures err { OnErr result (self.new.views.items ≡ self.old.views.items) }
        ensures buffers { self.new.buffers.items ≡ self.old.buffers.items }
    {
        let view = view_at(&other.views[row], number, &other.buffers, &self.buffers);
        self.views.push(view)?;
        Ok(())
    }

    /// Appends a row without a text. After a refusal the chunk is as it was.
    pub fn push_null(&mut self) -> Result<(), OutOfMemory>
        ensures ok { OnOk result
            (texts self.new.buffers.items self.new.views.items
            ≡ texts self.old.buffers.items self.old.views.items ++ None
            ∷ []) }
        ensures views { OnOk result (self.new.views.items ≡ self.old.views.items ++ None ∷ []) }
        ensures err { OnErr result (self.new.views.items ≡ self.old.views.items) }
        ensures buffers { self.new.buffers.items ≡ self.old.buffers.items }
    {
        self.views.push(None)?;
        Ok(())
    }
}

fn copy_buffers(alloc: Global, buffers: &[Bytes]) -> Result<Vec<Bytes>, OutOfMemory>
    ensures { IfOk result (λ v. v.items ≡ buffers.now) }
{
    let mut copies = Vec::with_capacity(alloc, buffers.len())?;
    for buffer in buffers {
        copies.push(buffer.copy(alloc)?)?;
    }
    Ok(copies)
}

// The view of the same text where its buffer stands among all under this number, and under its own where there is none.
fn view_at(
    view: &Option<View>,
    number: Option<u32>,
    buffers: &[Bytes],
    all: &[Bytes],
) -> Option<View>
    requires view { IsViewOrNone buffers.now view.now }
    requires held { StandsAt all.now number buffers.now view.now }
    ensures view { IsViewOrNone all.now result }
    ensures text { row_text all.now result ≡ row_text buffers.now view.now }
    ensures placed { result ≡ view_at_number number view.now }
{
    match (view, number) {
        (Some(view), Some(number)) if view.length > 12 => Some(view.renumbered(number)),
        _ => *view,
    }
}
