//! Buffers that texts are put into.
ghost use Rattle.std.specs.Prelude.{◌≡◌, ◌<◌, ◌+◌, ◌^◌, ◌∷◌, ◌++◌, [], IfOk, OnOk, OnErr, Some, length, map};
ghost use Rattle.tb_view.specs.Promise.Layout.{buffers_of};
ghost use Rattle.tb_view.specs.Layout.{IsPut, IsRow};

use crate::view::View;
use std::alloc::Global;
use std::marker::Model;
use std::mem;
use tb_value::{Bytes, OutOfMemory};

// A buffer has at most as many bytes, and a chunk as many buffers.
const MOST: usize = 4294967295;

/// Full buffers, and the one that is being filled.
#[derive(Drop)]
pub(crate) struct Filling {
    full: Vec<Vec<u8>>,
    last: Vec<u8>,
}

impl Model for Filling {
    ghost use Rattle.std.specs.Prelude.{ℕ, List, length, map, ◌<◌, ◌+◌, ◌^◌};

    ghost Value = { List (List ℕ) × List ℕ };

    ghost view = { λ f. (map (λ b. b.items) f.full.items, f.last.items) };

    ghost invariant = { λ f. length f.full.items + 1 < 2 ^ 32 };
}

impl Filling {
    /// No byte yet.
    pub(crate) fn empty(alloc: Global) -> Filling
        ensures { result ≡ ([], []) }
    {
        Filling {
            full: Vec::new(alloc),
            last: Vec::new(alloc),
        }
    }

    // Begins a new buffer with a text.
    fn begin(&mut self, alloc: Global, text: &[u8]) -> Result<(), OutOfMemory>
        ensures ok { OnOk result (self.new ≡ (self.old.0 ++ self.old.1 ∷ [], text.now)) }
        ensures err { OnErr result (self.new ≡ self.old) }
    {
        if self.full.len() + 1 == MOST {
            return Err(OutOfMemory);
        }
        self.full.reserve(1)?;
        let next = Vec::from_slice(alloc, text)?;
        self.full.push_reserved(mem::replace(&mut self.last, next));
        Ok(())
    }

    // Puts a long text behind the others, and gives its view.
    fn put(&mut self, alloc: Global, text: &[u8]) -> Result<View, OutOfMemory>
        requires long { 12 < length text.now }
        requires fits { length text.now < 2 ^ 32 }
        ensures ok { IfOk result (λ v. IsPut text.now self.old self.new v) }
        ensures err { OnErr result (self.new ≡ self.old) }
    {
        if self.last.len() + text.len() > MOST {
            self.begin(alloc, text)?;
            return Ok(View::long(text, self.full.len() as u32, 0));
        }
        let view = View::long(text, self.full.len() as u32, self.last.len() as u32);
        self.last.extend_from_slice(text)?;
        Ok(view)
    }

    /// The view of a text, which is put behind the others where it is long. A text of 2^32 bytes or more is refused. After a
    /// refusal the buffers are as they were.
    pub(crate) fn view_of(&mut self, alloc: Global, text: &[u8]) -> Result<View, OutOfMemory>
        ensures ok { IfOk result (λ v. IsRow (Some text.now) self.old self.new (Some v)) }
        ensures fits { OnOk result (length text.now < 2 ^ 32) }
        ensures err { OnErr result (self.new ≡ self.old) }
    {
        if text.len() <= 12 {
            return Ok(View::short(text));
        }
        if text.len() > MOST {
            return Err(OutOfMemory);
        }
        self.put(alloc, text)
    }

    /// All buffers, which are not copied.
    pub(crate) fn finish(self, alloc: Global) -> Result<Vec<Bytes>, OutOfMemory>
        ensures buffers { IfOk result (λ v. v.items ≡ buffers_of self) }
        ensures few { IfOk result (λ v. length v.items < 2 ^ 32) }
    {
        let Filling { full, last } = self;
        let mut buffers = shared(alloc, full)?;
        if !last.is_empty() {
            buffers.push(Bytes::from_vec(alloc, last)?)?;
        }
        Ok(buffers)
    }
}

fn shared(alloc: Global, buffers: Vec<Vec<u8>>) -> Result<Vec<Bytes>, OutOfMemory>
    ensures { IfOk result (λ v. v.items ≡ map (λ b. b.items) buffers.items) }
{
    let mut all = Vec::new(alloc);
    for buffer in buffers {
        all.push(Bytes::from_vec(alloc, buffer)?)?;
    }
    Ok(all)
}
