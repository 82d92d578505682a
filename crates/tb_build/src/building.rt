//! The tables of all parts of the keys.
ghost use Rattle.std.specs.Prelude.{◌≡◌, ℕ, ◌+◌, ◌<◌, ◌≤◌, length, map, All, IfOk};
ghost use Rattle.tb_build.specs.Promise.Plan.{part_count, part_sizes};
ghost use Rattle.tb_build.specs.Plan.{codes_of};
ghost use Rattle.tb_build.specs.TableView.{ArePartTables};
ghost use Rattle.tb_build.specs.Packed.{key_rows, PackedView};
ghost use Rattle.tb_build.specs.Pieces.{bare_of_part, items_of_part, IsTableOfItems, PiecesView};

use crate::keys::{JoinKey, KeyCode};
use crate::lent::{JoinList, KeyList};
use crate::packed::{PackedTable, packed, packed_table};
use crate::phases::run_phase;
use crate::pieces::{Pieces, scattered_pieces};
use std::alloc::Global;
use std::thread::Threads;
use tb_pool::{Exec, Gate, Parts};
use tb_value::{IdxSize, MAX_ROWS, OutOfMemory};

/// The one table of few keys, and its size.
pub fn one_table<K: KeyCode, L: KeyList<K>>(
    alloc: Global,
    list: &L,
) -> Result<(Vec<PackedTable<K>>, Vec<usize>), OutOfMemory>
    requires { length (L.list list.now) ≤ MAX_ROWS }
    ensures tables { IfOk result (λ r.
        ArePartTables K.eq K.code (L.list list.now) 1 (map (key_rows K.eq) r.0.items)) }
    ensures sizes { IfOk result (λ r.
        r.1.items ≡ part_sizes (codes_of K.code (L.list list.now)) 1) }
{
    let len = list.len();
    let table = packed_table(alloc, list, len)?;
    let mut tables = Vec::new(alloc);
    tables.push(table)?;
    let mut sizes = Vec::new(alloc);
    sizes.push(len)?;
    Ok((tables, sizes))
}

// The keys of a part, those of one portion after another, with room for so many.
fn part_items<K: KeyCode>(
    alloc: Global,
    portions: &[Pieces<K>],
    part: u32,
    room: usize,
) -> Result<Vec<(K, IdxSize)>, OutOfMemory>
    requires { All (λ (v : PiecesView K). part < length v.pieces) portions.now }
    ensures { IfOk result (λ v. v.items ≡ items_of_part portions.now part) }
{
    let mut items = Vec::with_capacity(alloc, room)?;
    for portion in portions {
        items.extend_from_slice(portion.of_part(part))?;
    }
    Ok(items)
}

// The rows of a part without a key, which are all in part 0.
fn part_bare_rows<K: KeyCode>(
    alloc: Global,
    portions: &[Pieces<K>],
    part: u32,
) -> Result<Vec<IdxSize>, OutOfMemory>
    ensures { IfOk result (λ v. v.items ≡ bare_of_part portions.now part) }
{
    let mut rows = Vec::new(alloc);
    if part != 0 {
        return Ok(rows);
    }
    for portion in portions {
        rows.extend_from_slice(portion.bare_rows())?;
    }
    Ok(rows)
}

// The table of the keys of one part, and of its rows without one.
fn part_table<K: KeyCode>(
    alloc: Global,
    portions: &[Pieces<K>],
    part: u32,
    room: usize,
) -> Result<PackedTable<K>, OutOfMemory>
    requires within { All (λ (v : PiecesView K). part < length v.pieces) portions.now }
    requires few { length (items_of_part portions.now part) ≤ MAX_ROWS }
    ensures { IfOk result (λ t.
        IsTableOfItems K.eq (items_of_part portions.now part) (bare_of_part portions.now part) t) }
{
    let items = part_items(alloc, portions, part, room)?;
    let bare = part_bare_rows(alloc, portions, part)?;
    packed(alloc, items.as_slice(), bare)
}

// Portions in pieces, of which those of each part become a table.
#[derive(Drop)]
struct Building<'a, K: JoinKey> {
    alloc: Global,
    portions: &'a [Pieces<K>],
    room: usize,
}

impl<K: JoinKey> Parts for Building<'_, K> {
    ghost use Rattle.std.specs.Prelude.{◌<◌, ◌≤◌, length, All};
    ghost use Rattle.tb_value.specs.declared.limits.TheConstants.{MAX_ROWS};
    ghost use Rattle.tb_build.specs.Pieces.{bare_of_part, items_of_part, IsTableOfItems, PiecesView};

    type Out = PackedTable<K>;

    ghost may_run = { λ w part. All (λ (v : PiecesView K). part < length v.pieces) w.portions.now × (length (items_of_part w.portions.now part) ≤ MAX_ROWS) };

    ghost gives = { λ w part out. IsTableOfItems K.eq (items_of_part w.portions.now part) (bare_of_part w.portions.now part) out };

    fn run(&self, part: u32) -> Result<PackedTable<K>, OutOfMemory> {
        part_table(self.alloc, self.portions, part, self.room)
    }
}

// How many rows each table has.
fn sizes<K: KeyCode>(alloc: Global, tables: &[PackedTable<K>]) -> Result<Vec<usize>, OutOfMemory>
    requires { All (λ (t : PackedView K). length t.keys + length t.bare ≤ MAX_ROWS) tables.now }
    ensures { IfOk result (λ v.
        v.items ≡ map (λ (t : PackedView K). length t.keys + length t.bare) tables.now) }
{
    let mut sizes = Vec::with_capacity(alloc, tables.len())?;
    for table in tables {
        sizes.push(table.len())?;
    }
    Ok(sizes)
}

// The tables of all partitions, each built as a part of one phase, and their sizes.
fn part_tables<K: JoinKey, L: JoinList<K>, G: Gate>(
    rt: &(impl Threads + Sync),
    alloc: Global,
    list: &L,
    exec: &Exec,
    gate: &G,
) -> Result<(Vec<PackedTable<K>>, Vec<usize>), OutOfMemory>
    requires { length (L.list list.now) ≤ MAX_ROWS }
    ensures tables { IfOk result (λ r.
        ArePartTables K.eq K.code (L.list list.now) exec.now.partitions
        (map (key_rows K.eq) r.0.items)) }
    ensures sizes { IfOk result (λ r.
        r.1.items ≡ part_sizes (codes_of K.code (L.list list.now)) exec.now.partitions) }
    ensures let_in { IfOk result (λ _.
        (part : ℕ) → part < exec.now.partitions → G.lets_in gate.now part) }
{
    let parts = exec.partitions();
    let portions = scattered_pieces(rt, alloc, list, exec, gate)?;
    let work = Building {
        alloc,
        portions: portions.as_slice(),
        room: list.len() / parts as usize,
    };
    let tables = run_phase(rt, alloc, exec, parts, &work, gate)?;
    let sizes = sizes(alloc, tables.as_slice())?;
    Ok((tables, sizes))
}

/// The tables of as many parts as are planned, and their sizes. One part is built on the caller, of the keys as they
/// stand. The gate has let each part in.
pub fn planned_tables<K: JoinKey, L: JoinList<K>, G: Gate>(
    rt: &(impl Threads + Sync),
    alloc: Global,
    list: &L,
    exec: &Exec,
    gate: &G,
) -> Result<(Vec<PackedTable<K>>, Vec<usize>), OutOfMemory>
    requires { length (L.list list.now) ≤ MAX_ROWS }
    ensures count { IfOk result (λ r. (1 ≤ length r.0.items) × (length r.0.items ≤ 1024)) }
    ensures tables { IfOk result (λ r.
        ArePartTables K.eq K.code (L.list list.now) (part_count exec.now (length (L.list list.now)))
        (map (key_rows K.eq) r.0.items)) }
    ensures sizes { IfOk result (λ r.
        r.1.items
        ≡ part_sizes (codes_of K.code (L.list list.now))
        (part_count exec.now (length (L.list list.now)))) }
    ensures let_in { IfOk result (λ _.
        (part : ℕ) → part < part_count exec.now (length (L.list list.now))
        → G.lets_in gate.now part) }
{
    if list.len() < exec.small() as usize || exec.partitions() == 1 {
        gate.enter(0);
        return one_table(alloc, list);
    }
    part_tables(rt, alloc, list, exec, gate)
}
