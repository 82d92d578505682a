//! Chunks made of the rows that ids name, over the buffers that their texts lie in.
ghost use Rattle.std.specs.Prelude.{◌≡◌, ◌<◌, ◌^◌, ◌∷◌, ◌++◌, [], All, Contains, IfOk, IfSome, OnOk, length, map};
ghost use Rattle.tb_chunk.specs.ViewArrays.{view_arrays_of};
ghost use Rattle.tb_frame.specs.Frame.{lengths};
ghost use Rattle.tb_gather.specs.Gathered.{value_of_id};
ghost use Rattle.tb_gather.specs.Ids.{NamesRow};
ghost use Rattle.tb_gather.specs.Kept.{IsPlace, buffer_at, number_in, place_of, used_places, used_view_array, view_among};

use indexmap::IndexSet;
use std::alloc::Global;
use tb_store::Chunk;
use tb_value::{ChunkId, OutOfMemory};

// A chunk, and a buffer of it.
type Place = (usize, u32);

// Where the text of the row lies that an id names, none where it is short or there is none.
fn place_of<C: Chunk, const B: u64>(chunks: &[C], id: &ChunkId<B>) -> Option<Place>
    requires named { NamesRow (lengths (map C.shown chunks.now)) id.now }
    ensures place { result ≡ place_of (view_arrays_of C.views C.buffers chunks.now) id.now }
    ensures within { IfSome result (IsPlace (view_arrays_of C.views C.buffers chunks.now)) }
{
    if id.is_null() {
        return None;
    }
    let (chunk, row) = id.extract();
    let chunk = chunk as usize;
    let buffer = chunks[chunk].long_buffer(row as usize)?;
    Some((chunk, buffer))
}

// The buffers that the texts of the rows lie in, in the order of first use.
fn places_in_use<C: Chunk, const B: u64>(
    alloc: Global,
    chunks: &[C],
    ids: &[ChunkId<B>],
) -> Result<IndexSet<Place>, OutOfMemory>
    requires named { All (NamesRow (lengths (map C.shown chunks.now))) ids.now }
    ensures places { IfOk result (λ s.
        s.keys ≡ used_places (view_arrays_of C.views C.buffers chunks.now) ids.now) }
    ensures within { IfOk result (λ s.
        All (IsPlace (view_arrays_of C.views C.buffers chunks.now)) s.keys) }
{
    let mut places = IndexSet::new(alloc);
    for id in ids {
        if let Some(place) = place_of(chunks, id) {
            places.insert(place)?;
        }
    }
    Ok(places)
}

// A chunk of no row over the buffers at these places, with room for as many rows as are given.
fn over_places<C: Chunk>(
    alloc: Global,
    chunks: &[C],
    places: &[Place],
    rows: usize,
) -> Result<C, OutOfMemory>
    requires { All (IsPlace (view_arrays_of C.views C.buffers chunks.now)) places.now }
    ensures shown { IfOk result (λ c. C.shown c ≡ []) }
    ensures views { IfOk result (λ c. C.views c ≡ []) }
    ensures buffers { IfOk result (λ c.
        C.buffers c ≡ map (buffer_at (view_arrays_of C.views C.buffers chunks.now)) places.now) }
{
    let mut out = C::with_capacity(alloc, rows)?;
    for (chunk, buffer) in places {
        out.add_buffer(alloc, &chunks[*chunk], *buffer)?;
    }
    Ok(out)
}

// The number among these places of the buffer that a row's text lies in, none where it lies in none.
fn number_of<C: Chunk, const B: u64>(
    chunks: &[C],
    places: &IndexSet<Place>,
    id: &ChunkId<B>,
) -> Option<u32>
    requires named { NamesRow (lengths (map C.shown chunks.now)) id.now }
    requires few { length places.now.keys < 2 ^ 32 }
    ensures { result
        ≡ number_in places.now.keys
        (place_of (view_arrays_of C.views C.buffers chunks.now) id.now) }
{
    let place = place_of(chunks, id)?;
    let number = places.get_index_of(&place)?;
    Some(number as u32)
}

// Appends the row that an id names, Null for none.
fn push_used<C: Chunk, const B: u64>(
    alloc: Global,
    out: &mut C,
    chunks: &[C],
    places: &IndexSet<Place>,
    id: &ChunkId<B>,
) -> Result<(), OutOfMemory>
    requires room { length (C.shown out.old) < 2 ^ 63 }
    requires named { NamesRow (lengths (map C.shown chunks.now)) id.now }
    requires held { C.buffers out.old
        ≡ map (buffer_at (view_arrays_of C.views C.buffers chunks.now)) places.now.keys }
    requires used { IfSome (place_of (view_arrays_of C.views C.buffers chunks.now) id.now)
        (Contains places.now.keys) }
    ensures shown { OnOk result
        (C.shown out.new ≡ C.shown out.old ++ value_of_id (map C.shown chunks.now) id.now ∷ []) }
    ensures views { OnOk result
        (C.views out.new
        ≡ C.views out.old
        ++ view_among (view_arrays_of C.views C.buffers chunks.now) places.now.keys
        id.now
        ∷ []) }
    ensures buffers { C.buffers out.new ≡ C.buffers out.old }
{
    if id.is_null() {
        return out.push_null();
    }
    let (chunk, row) = id.extract();
    let number = number_of(chunks, places, id);
    out.push_from(alloc, &chunks[chunk as usize], number, row as usize)
}

/// The rows that the ids name, Null for none, over the buffers that their texts lie in. It takes steps in the number of ids.
pub(crate) fn gather_used<C: Chunk, const B: u64>(
    alloc: Global,
    chunks: &[C],
    ids: &[ChunkId<B>],
) -> Result<C, OutOfMemory>
    requires named { All (NamesRow (lengths (map C.shown chunks.now))) ids.now }
    requires few { length ids.now < 2 ^ 32 }
    ensures shown { IfOk result (λ c.
        C.shown c ≡ map (value_of_id (map C.shown chunks.now)) ids.now) }
    ensures views { IfOk result (λ c.
        C.views c ≡ (used_view_array (view_arrays_of C.views C.buffers chunks.now) ids.now).views) }
    ensures buffers { IfOk result (λ c.
        C.buffers c
        ≡ (used_view_array (view_arrays_of C.views C.buffers chunks.now) ids.now).buffers) }
{
    let places = places_in_use(alloc, chunks, ids)?;
    let mut out = over_places(alloc, chunks, places.as_slice(), ids.len())?;
    for id in ids {
        push_used(alloc, &mut out, chunks, &places, id)?;
    }
    Ok(out)
}
