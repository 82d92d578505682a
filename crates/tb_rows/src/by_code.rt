//! The first row of each code, where codes are few, and whether rows of one code are the same.
ghost use Rattle.std.specs.Prelude.{◌≡◌, ◌∷◌, [], IfOk, IfSome, length, map, true};
ghost use Rattle.tb_chunk.specs.Promise.Col.{values};
ghost use Rattle.tb_chunk.specs.Seen.{chunk_lists};
ghost use Rattle.tb_rows.specs.Coded.{AreAsLed, AreLeaders, same_code};
ghost use Rattle.tb_rows.specs.Fields.{same_at};
ghost use Rattle.tb_rows.specs.InGroups.{named_rows};
ghost use Rattle.tb_rows.specs.Names.{name_of, AreNamed};

use crate::names::RowNames;
use crate::places::CodePlaces;
use crate::row_values::{AnyColumns, OneChunk, RowValues};
use std::alloc::Global;
use tb_store::{Chunk, Chunks, Series};
use tb_value::{IdxSize, OutOfMemory};

// Rows of more codes are sorted: a map of so many is slow.
const MANY_CODES: usize = 4_096;

// For each place the first one whose row has the same code, or none where there are many codes.
fn code_leaders<V: RowValues>(
    alloc: Global,
    rows: &V,
    names: RowNames<'_>,
    len: usize,
) -> Result<Option<Vec<IdxSize>>, OutOfMemory>
    requires whole { V.IsWhole rows.now }
    requires named { AreNamed names len }
    ensures { IfOk result (λ o. IfSome o (λ v.
        AreLeaders (same_code (V.columns rows.now) (name_of names.entry)) len v.items)) }
{
    let mut places = CodePlaces::new(alloc)?;
    let mut leaders = Vec::with_capacity(alloc, len)?;
    for place in 0..len {
        if places.len() > MANY_CODES {
            return Ok(None);
        }
        let code = rows.code(names.name(place) as usize);
        leaders.push(places.place_of(code, place as IdxSize)?)?;
    }
    Ok(Some(leaders))
}

// Whether the row of each place has the values of its leader.
fn are_as_led<V: RowValues>(rows: &V, names: RowNames<'_>, leaders: &[IdxSize]) -> bool
    requires whole { V.IsWhole rows.now }
    requires named { AreNamed names (length leaders.now) }
    requires led { AreLeaders (same_code (V.columns rows.now) (name_of names)) (length leaders.now)
        leaders.now }
    ensures { result ≡ true
        → AreAsLed (V.columns rows.now) (name_of names.entry) leaders.now (length leaders.now) }
{
    for place in 0..leaders.len() {
        let leader = names.name(leaders[place] as usize);
        if !rows.are_same(leader as usize, names.name(place) as usize) {
            return false;
        }
    }
    true
}

// For each place the first one whose row has the same values, or none where codes are many, or where they don't tell the
// rows apart.
fn told_leaders<V: RowValues>(
    alloc: Global,
    rows: &V,
    names: RowNames<'_>,
    len: usize,
) -> Result<Option<Vec<IdxSize>>, OutOfMemory>
    requires whole { V.IsWhole rows.now }
    requires named { AreNamed names len }
    ensures { IfOk result (λ o. IfSome o (λ v. AreLeaders
        (named_rows (name_of names.entry) (same_at (V.columns rows.now))) len v.items)) }
{
    if let Some(leaders) = code_leaders(alloc, rows, names, len)? {
        if are_as_led(rows, names, &leaders) {
            return Ok(Some(leaders));
        }
    }
    Ok(None)
}

// The same of a column of these chunks. Where there is one, its type is asked for once.
fn column_leaders<C: Chunk>(
    alloc: Global,
    column: &Series,
    chunks: &[C],
    names: RowNames<'_>,
    len: usize,
) -> Result<Option<Vec<IdxSize>>, OutOfMemory>
    requires named { AreNamed names len }
    requires chunks { column.now.chunks ≡ map C.shown chunks.now }
    ensures { IfOk result (λ o. IfSome o (λ v. AreLeaders
        (named_rows (name_of names.entry) (same_at (column.entry ∷ []))) len v.items)) }
{
    match chunks {
        [chunk] => told_leaders(alloc, &OneChunk { column, chunk }, names, len),
        _ => told_leaders(alloc, &AnyColumns { columns: &[column] }, names, len),
    }
}

/// For each place the first one whose row has the same values, or none where codes are many, or where they don't tell the
/// rows apart.
pub(crate) fn few_leaders(
    alloc: Global,
    columns: &[&Series],
    names: RowNames<'_>,
    len: usize,
) -> Result<Option<Vec<IdxSize>>, OutOfMemory>
    requires { AreNamed names len }
    ensures { IfOk result (λ o.
        IfSome o
        (λ v. AreLeaders (named_rows (name_of names.entry) (same_at columns.now)) len v.items)) }
{
    let any = AnyColumns { columns };
    let [column] = columns else {
        return told_leaders(alloc, &any, names, len);
    };
    match column.chunks() {
        Chunks::Int64Type(chunks) => column_leaders(alloc, column, chunks, names, len),
        Chunks::Int32Type(chunks) => column_leaders(alloc, column, chunks, names, len),
        Chunks::StringType(chunks) => column_leaders(alloc, column, chunks, names, len),
        _ => told_leaders(alloc, &any, names, len),
    }
}
