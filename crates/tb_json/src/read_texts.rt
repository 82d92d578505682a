//! String and Binary chunks, read from JSON.
ghost use Rattle.std.specs.Prelude.{◌≡◌, ◌++◌, false, map, option_map, replicate, true, IfOk, IfSome};
ghost use Rattle.std.specs.List.{All};
ghost use Rattle.std.specs.Option.{MatchOption};
ghost use Rattle.tb_tree.specs.View.{item_view, listed};
ghost use Rattle.tb_value.specs.Promise.Datum.{binary, string};
ghost use Rattle.tb_value.specs.Promise.Kind as kind;
ghost use Rattle.tb_value.specs.Promise.Typed.{HasType};
ghost use Rattle.tb_chunk.specs.Chunk.{or_null};
ghost use Rattle.tb_json.specs.Promise.Lists.{each};
ghost use Rattle.tb_json.specs.Promise.Cells.{cell_in};

use crate::read_plain_cells::{decode_short, lent_text};
use std::alloc::Global;
use tb_store::{BinaryBuilder, BinaryChunk, Chunk, StringBuilder, StringChunk};
use tb_tree::{Item, Items};
use tb_value::OutOfMemory;

/// The String chunk of these values, or None where one of them is no text.
pub(crate) fn text_chunk(
    alloc: Global,
    items: Items<'_>,
) -> Result<Option<StringChunk>, OutOfMemory>
    ensures values { IfOk result (λ o. option_map ⟦<StringChunk as Chunk>⟧.shown o
        ≡ each (cell_in kind.string) (listed items.entry)) }
    ensures typed { IfOk result (λ o. IfSome o
        (λ c. All (HasType kind.string) (⟦<StringChunk as Chunk>⟧.shown c))) }
{
    let len = items.len();
    let mut builder = StringBuilder::with_capacity(alloc, len)?;
    for i in 0..len {
        let Some(text) = lent_text(items.at(i)) else {
            return Ok(None);
        };
        builder.push_option(alloc, text)?;
    }
    Ok(Some(builder.finish(alloc)?))
}

/// Appends the bytes that a value is so many times, by way of the buffer, and says whether it is such a value.
pub(crate) fn push_bytes(
    alloc: Global,
    builder: &mut BinaryBuilder,
    buffer: &mut Vec<u8>,
    value: Item<'_>,
    times: usize,
) -> Result<bool, OutOfMemory>
    ensures { IfOk result (λ pushed. MatchOption (cell_in kind.binary (item_view value.entry)) (pushed ≡ false)
        (λ cell. (pushed ≡ true) × (map (or_null binary) builder.new.rows ≡ map (or_null binary) builder.old.rows ++ replicate times cell))) }
{
    if value.is_null() {
        builder.push_nulls(times)?;
        return Ok(true);
    }
    let Some(digits) = value.as_str() else {
        return Ok(false);
    };
    let pushed = decode_short(buffer, digits)?;
    if pushed {
        builder.push_times(alloc, buffer, times)?;
    }
    Ok(pushed)
}

/// The Binary chunk of these values, or None where one of them is no bytes.
pub(crate) fn bytes_chunk(
    alloc: Global,
    items: Items<'_>,
) -> Result<Option<BinaryChunk>, OutOfMemory>
    ensures values { IfOk result (λ o. option_map ⟦<BinaryChunk as Chunk>⟧.shown o
        ≡ each (cell_in kind.binary) (listed items.entry)) }
    ensures typed { IfOk result (λ o. IfSome o
        (λ c. All (HasType kind.binary) (⟦<BinaryChunk as Chunk>⟧.shown c))) }
{
    let len = items.len();
    let mut builder = BinaryBuilder::with_capacity(alloc, len)?;
    let mut buffer = Vec::new(alloc);
    for i in 0..len {
        if !push_bytes(alloc, &mut builder, &mut buffer, items.at(i), 1)? {
            return Ok(None);
        }
    }
    Ok(Some(builder.finish(alloc)?))
}
