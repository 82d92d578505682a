//! A run of values of a column.
ghost use Rattle.std.specs.Prelude.{◌≡◌, ◌<◌, ◌≤◌, ◌+◌, ◌^◌, ◌++◌, ◌∷◌, [], IfOk, IfSome, OnOk, OnErr, None, is_none, length, get_or, map, replicate, take, drop};
ghost use Rattle.std.specs.List.{All, count_by};
ghost use Rattle.tb_value.specs.Promise.Datum.{Datum, null, string};
ghost use Rattle.tb_value.specs.Promise.Kind as kinds;
ghost use Rattle.tb_value.specs.See.{data_of, datum, lent_value, IsText};
ghost use Rattle.tb_cell.specs.Shown.{or_null};
ghost use Rattle.tb_cell.specs.Fits.{Fits};
ghost use Rattle.tb_cell.specs.Promise.Flag.{nulls};
ghost use Rattle.tb_view.specs.Held.{StandsAt};
ghost use Rattle.tb_view.specs.Moved.{view_at_number, used_buffer};
ghost use Rattle.tb_chunk.specs.Promise.Fresh.{fresh_view_array};
ghost use Rattle.tb_value.specs.Texts.{IsUtf8Row};
ghost use Rattle.tb_view.specs.View.{texts};
ghost use Rattle.std.proofs.Common.{arith, rules};
ghost use Rattle.std.proofs.Props.{props};
ghost use Rattle.std.proofs.lemmas.List.{length-map, length-replicate};

use std::alloc::Global;
use tb_value::{AnyValue, OutOfMemory, ValueRef};
use tb_view::ViewChunk;

/// Values of a column that stand together, and to which values can be appended. `shown` is what contracts see of them,
/// `kind` is the type by which they are stored, and `buffers` are the bytes of long texts that they share with others.
/// `views` has an entry for each value: the view of a text over the buffers, and none for Null and for a value that is no text,
/// which has no view.
pub trait Chunk: Drop {
    ghost use Rattle.std.specs.Prelude.{ℕ, List, Option};
    ghost use Rattle.tb_value.specs.Promise.Kind.{Kind};
    ghost use Rattle.tb_view.specs.declared.view.View.{View};

    ghost shown: { Self → List Datum };

    ghost buffers: { Self → List (List ℕ) };

    ghost views: { Self → List (Option View) };

    ghost kind: { Kind };

    /// The number of values, nulls too.
    fn len(&self) -> usize
        ensures { result ≡ length (shown self.now) };

    /// The number of nulls.
    fn null_count(&self) -> usize
        ensures { result ≡ length (nulls (shown self.now)) };

    /// The number of buffers.
    fn buffer_count(&self) -> usize
        ensures { result ≡ length (buffers self.now) };

    /// The value of a row, lent.
    fn value(&self, row: usize) -> ValueRef<'_>
        requires { row < length (shown self.now) }
        ensures value { lent_value result ≡ get_or (shown self.now) row null }
        ensures text { IsText result };

    /// The chunk of these values. Each is Null or of a type that is stored so.
    fn from_values(alloc: Global, values: &[AnyValue]) -> Result<Self, OutOfMemory>
        requires { All (Fits kind) (data_of values.now) }
        ensures shown { IfOk result (λ c. shown c ≡ data_of values.now) }
        ensures views { IfOk result (λ c. views c ≡ (fresh_view_array (data_of values.now)).views) }
        ensures buffers { IfOk result (λ c. buffers c ≡ (fresh_view_array (data_of values.now)).buffers) };

    /// A chunk of the same values. Their bytes are shared.
    fn copy(&self, alloc: Global) -> Result<Self, OutOfMemory>
        ensures shown { IfOk result (λ c. shown c ≡ shown self.now) }
        ensures views { IfOk result (λ c. views c ≡ views self.now) }
        ensures buffers { IfOk result (λ c. buffers c ≡ buffers self.now) };

    /// The chunk of no value. It takes no memory yet.
    fn empty(alloc: Global) -> Self
        ensures shown { shown result ≡ [] }
        ensures views { views result ≡ [] }
        ensures buffers { buffers result ≡ [] };

    /// The chunk of no value and no buffer, with room for as many values as are given.
    fn with_capacity(alloc: Global, rows: usize) -> Result<Self, OutOfMemory>
        ensures shown { IfOk result (λ c. shown c ≡ []) }
        ensures views { IfOk result (λ c. views c ≡ []) }
        ensures buffers { IfOk result (λ c. buffers c ≡ []) };

    /// The number of the buffer that the long text of a row lies in, none where the value has none.
    fn long_buffer(&self, row: usize) -> Option<u32>
        requires { row < length (shown self.now) }
        ensures buffer { result ≡ used_buffer (get_or (views self.now) row None) }
        ensures within { IfSome result (λ b. b < length (buffers self.now)) };

    /// Takes up the buffer of this number of another chunk behind its own, before there is a value, and none where the other has
    /// no such buffer. No byte is copied. After a refusal the chunk is as it was.
    fn add_buffer(&mut self, alloc: Global, other: &Self, number: u32) -> Result<(), OutOfMemory>
        requires none { shown self.old ≡ [] }
        ensures shown { shown self.new ≡ [] }
        ensures views { views self.new ≡ views self.old }
        ensures buffers { OnOk result
            (buffers self.new ≡ buffers self.old ++ take 1 (drop number (buffers other.now))) }
        ensures err { OnErr result (buffers self.new ≡ buffers self.old) };

    /// Appends rows of another chunk from `from` on, as many of so many as can be taken as one block, and tells how many these
    /// are. None of them has a view.
    fn append_block(
        &mut self,
        alloc: Global,
        other: &Self,
        from: usize,
        count: usize,
    ) -> Result<usize, OutOfMemory>
        requires room { length (shown self.old) + count < 2 ^ 63 }
        requires within { from + count ≤ length (shown other.now) }
        ensures count { IfOk result (λ n. n ≤ count) }
        ensures shown { IfOk result (λ n.
            shown self.new ≡ shown self.old ++ take n (drop from (shown other.now))) }
        ensures views { IfOk result (λ n.
            views self.new ≡ views self.old ++ take n (drop from (views other.now))) }
        ensures none { IfOk result (λ n.
            All (λ v. v ≡ None) (take n (drop from (views other.now)))) }
        ensures buffers { buffers self.new ≡ buffers self.old };

    /// Appends a row of another chunk. The buffer of its long text stands in this one under `number`, and under its own
    /// number where there is none. After a refusal the chunk is as it was.
    fn push_from(
        &mut self,
        alloc: Global,
        other: &Self,
        number: Option<u32>,
        row: usize,
    ) -> Result<(), OutOfMemory>
        requires room { length (shown self.old) < 2 ^ 63 }
        requires row { row < length (shown other.now) }
        requires held { StandsAt (buffers self.old) number (buffers other.now)
            (get_or (views other.now) row None) }
        ensures ok { OnOk result
            (shown self.new ≡ shown self.old ++ get_or (shown other.now) row null ∷ []) }
        ensures views { OnOk result
            (views self.new
            ≡ views self.old ++ view_at_number number (get_or (views other.now) row None)
            ∷ []) }
        ensures err { OnErr result (shown self.new ≡ shown self.old) }
        ensures err_views { OnErr result (views self.new ≡ views self.old) }
        ensures buffers { buffers self.new ≡ buffers self.old };

    /// Appends a Null. After a refusal the chunk is as it was.
    fn push_null(&mut self) -> Result<(), OutOfMemory>
        requires { length (shown self.old) < 2 ^ 63 }
        ensures ok { OnOk result (shown self.new ≡ shown self.old ++ null ∷ []) }
        ensures views { OnOk result (views self.new ≡ views self.old ++ None ∷ []) }
        ensures err { OnErr result (shown self.new ≡ shown self.old) }
        ensures err_views { OnErr result (views self.new ≡ views self.old) }
        ensures buffers { buffers self.new ≡ buffers self.old };

    ghost viewed: { (c : Self) → length (views c) ≡ length (shown c) };

    ghost few: { (c : Self) → length (buffers c) < 2 ^ 32 };
}

// Nulls alone, of which the number is kept.
impl Chunk for usize {
    ghost shown = { λ n. replicate n null };

    ghost buffers = { λ _. [] };

    ghost views = { λ n. replicate n None };

    ghost kind = { kinds.null };

    ghost viewed = { λ c. Prim.search (rules, length-map, length-replicate) };

    ghost few = { λ _. omega arith };

    fn len(&self) -> usize {
        *self
    }

    fn null_count(&self) -> usize {
        *self
    }

    fn buffer_count(&self) -> usize {
        0
    }

    fn value(&self, row: usize) -> ValueRef<'_> {
        ValueRef::Null
    }

    fn from_values(alloc: Global, values: &[AnyValue]) -> Result<usize, OutOfMemory> {
        Ok(values.len())
    }

    fn copy(&self, alloc: Global) -> Result<usize, OutOfMemory> {
        Ok(*self)
    }

    fn empty(alloc: Global) -> usize {
        0
    }

    fn with_capacity(alloc: Global, rows: usize) -> Result<usize, OutOfMemory> {
        Ok(0)
    }

    fn long_buffer(&self, _row: usize) -> Option<u32> {
        None
    }

    fn add_buffer(
        &mut self,
        _alloc: Global,
        _other: &usize,
        _number: u32,
    ) -> Result<(), OutOfMemory> {
        Ok(())
    }

    fn append_block(
        &mut self,
        _alloc: Global,
        _other: &usize,
        _from: usize,
        count: usize,
    ) -> Result<usize, OutOfMemory> {
        *self += count;
        Ok(count)
    }

    fn push_from(
        &mut self,
        alloc: Global,
        other: &usize,
        _number: Option<u32>,
        row: usize,
    ) -> Result<(), OutOfMemory> {
        *self += 1;
        Ok(())
    }

    fn push_null(&mut self) -> Result<(), OutOfMemory> {
        *self += 1;
        Ok(())
    }
}

/// Optional texts, each as a view over shared buffers.
#[derive(Drop)]
pub struct StringChunk {
    pub(crate) inner: ViewChunk,
    ghost utf8: { All IsUtf8Row (texts inner.buffers.items inner.views.items) } by { Prim.hlevel props },
}

impl Chunk for StringChunk {
    ghost use Rattle.std.proofs.Common.{rules};
    ghost use Rattle.std.proofs.lemmas.List.{length-map, length-replicate};
    ghost use Rattle.std.specs.Prelude.{map};
    ghost use Rattle.tb_value.specs.Promise.Datum.{string};
    ghost use Rattle.tb_value.specs.Promise.Kind as kinds;
    ghost use Rattle.tb_cell.specs.Shown.{or_null};
    ghost use Rattle.tb_view.specs.View.{texts};

    ghost shown = { λ c. map (or_null string) (texts c.inner.buffers.items c.inner.views.items) };

    ghost buffers = { λ c. c.inner.buffers.items };

    ghost views = { λ c. c.inner.views.items };

    ghost kind = { kinds.string };

    ghost viewed = { λ c. Prim.search (rules, length-map, length-replicate) };

    ghost few = { λ c. c.inner.few };

    fn len(&self) -> usize {
        self.inner.len()
    }

    fn null_count(&self) -> usize {
        self.inner.null_count()
    }

    fn buffer_count(&self) -> usize {
        self.inner.buffers().len()
    }

    fn value(&self, row: usize) -> ValueRef<'_> {
        match self.inner.get(row) {
            None => ValueRef::Null,
            Some(text) => ValueRef::String(text),
        }
    }

    fn from_values(alloc: Global, values: &[AnyValue]) -> Result<StringChunk, OutOfMemory> {
        Ok(StringChunk {
            inner: ViewChunk::from_values(alloc, values)?,
        })
    }

    fn copy(&self, alloc: Global) -> Result<StringChunk, OutOfMemory> {
        Ok(StringChunk {
            inner: self.inner.copy(alloc)?,
        })
    }

    fn empty(alloc: Global) -> StringChunk {
        StringChunk {
            inner: ViewChunk::empty(alloc),
        }
    }

    fn with_capacity(alloc: Global, rows: usize) -> Result<StringChunk, OutOfMemory> {
        Ok(StringChunk {
            inner: ViewChunk::with_capacity(alloc, rows)?,
        })
    }

    fn long_buffer(&self, row: usize) -> Option<u32> {
        self.inner.long_buffer(row)
    }

    fn add_buffer(
        &mut self,
        alloc: Global,
        other: &StringChunk,
        number: u32,
    ) -> Result<(), OutOfMemory> {
        self.inner.add_buffer(alloc, &other.inner, number)
    }

    fn append_block(
        &mut self,
        _alloc: Global,
        _other: &StringChunk,
        _from: usize,
        _count: usize,
    ) -> Result<usize, OutOfMemory> {
        Ok(0)
    }

    fn push_from(
        &mut self,
        _alloc: Global,
        other: &StringChunk,
        number: Option<u32>,
        row: usize,
    ) -> Result<(), OutOfMemory> {
        self.inner.push_from(&other.inner, number, row)
    }

    fn push_null(&mut self) -> Result<(), OutOfMemory> {
        self.inner.push_null()
    }
}
