//! Key columns in one chunk.
ghost use Rattle.std.specs.Prelude.{◌≡◌, ◌∷◌, [], IfOk, option_map};
ghost use Rattle.tb_chunk.specs.Promise.Col.{values};
ghost use Rattle.tb_chunk.specs.Col.{physical};
ghost use Rattle.tb_chunk.specs.Seen.{chunk_lists, storage};
ghost use Rattle.tb_sorted.specs.Columns.{IsInOneChunk};

use std::alloc::Global;
use tb_store::{Chunks, Series};
use tb_value::OutOfMemory;

/// A copy of the key in one chunk, where it has several.
pub(crate) fn joined_key(alloc: Global, key: &Series) -> Result<Option<Series>, OutOfMemory>
    ensures { IfOk result (IsInOneChunk key.now) }
{
    if key.n_chunks() == 1 {
        return Ok(None);
    }
    Ok(Some(key.rechunk(alloc)?))
}

/// The one chunk of the key: its own, or that of the copy.
pub(crate) fn lone_chunk<'a>(key: &'a Series, joined: &'a Option<Series>) -> &'a Chunks
    requires { IsInOneChunk key.now joined.now }
    ensures lists { chunk_lists result.now ≡ values key.now ∷ [] }
    ensures storage { storage result.now ≡ physical key.now.kind }
{
    match joined {
        Some(series) => series.chunks(),
        None => key.chunks(),
    }
}
