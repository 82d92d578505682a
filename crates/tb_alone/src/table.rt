//! A table of keys in their order, each beside its row.
ghost use Rattle.std.specs.Prelude.{◌≡◌, ℕ, ◌≤◌, length, map, All, IfOk, OnOk, IsSortedByKey};
ghost use Rattle.tb_value.specs.Promise.Pairs.{row_numbers};
ghost use Rattle.tb_build.specs.Packed.{keys_of, rows_of_key, Ascend, IsRun, KeepsItems};
ghost use Rattle.tb_build.specs.Pieces.{AreItemsOf};
ghost use Rattle.tb_alone.specs.Tables.{IsKeyTable};

use std::alloc::Global;
use std::marker::Model;
use tb_build::{KeyCode, KeyList};
use tb_numbered::part;
use tb_value::{IdxSize, MAX_ROWS, OutOfMemory};

/// The keys of a list in their order, each beside its row. `key_table` alone makes one.
#[derive(Drop)]
pub(crate) struct KeyTable<K: KeyCode> {
    keys: Vec<K>,
    rows: Vec<IdxSize>,
}

impl<K: KeyCode> Model for KeyTable<K> {
    ghost use Rattle.std.specs.Prelude.{ℕ, List};
    ghost use Rattle.std.specs.List.{zip};
    ghost use Rattle.tb_alone.specs.Tables.{IsInOrder};

    ghost Value = { List (K × ℕ) };

    ghost view = { λ t. zip t.keys.items t.rows.items };

    ghost invariant = { λ t. IsInOrder K.cmp t.keys.items t.rows.items };
}

impl<K: KeyCode> KeyTable<K> {
    /// The rows of the equal keys, ascending.
    pub(crate) fn rows(&self, key: &K) -> &[IdxSize]
        ensures { result.now ≡ rows_of_key K.eq self.now key.now }
    {
        let (from, to) = run_of(self.keys.as_slice(), key);
        part(self.rows.as_slice(), from, to)
    }
}

// Where the equal keys stand among keys that ascend.
fn run_of<K: KeyCode>(keys: &[K], key: &K) -> (usize, usize)
    requires sorted { Ascend K.cmp keys.now 0 (length keys.now) }
    ensures { IsRun (K.eq key.now) keys.now 0 (length keys.now) result.0 result.1 }
{
    let from = keys.partition_point(|other| other.cmp(key).is_lt());
    let to = keys.partition_point(|other| other.cmp(key).is_le());
    (from, to)
}

// The keys of the rows that have one, each beside its row.
fn keyed<K: KeyCode, L: KeyList<K>>(
    alloc: Global,
    list: &L,
) -> Result<Vec<(K, IdxSize)>, OutOfMemory>
    requires few { length (L.list list.now) ≤ MAX_ROWS }
    ensures { IfOk result (λ v.
        AreItemsOf K.eq (L.list list.now) (row_numbers (length (L.list list.now))) v.items) }
{
    let len = list.len();
    let mut items = Vec::with_capacity(alloc, len)?;
    for row in 0..len {
        if let Some(key) = list.key(row) {
            items.push((key, row as IdxSize))?;
        }
    }
    Ok(items)
}

// Puts items in the order of their keys; items of equal keys stay in theirs.
fn sort_items<K: KeyCode>(alloc: Global, items: &mut [(K, IdxSize)]) -> Result<(), OutOfMemory>
    ensures sorted { OnOk result (IsSortedByKey (λ (e : K × ℕ). e.0) K.cmp items.new) }
    ensures kept { OnOk result (KeepsItems K.eq items.old items.new) }
{
    items.sort_by_key(alloc, |item| item.0)?;
    Ok(())
}

// The keys and the rows of items, apart.
fn apart<K: Copy>(
    alloc: Global,
    items: &[(K, IdxSize)],
) -> Result<(Vec<K>, Vec<IdxSize>), OutOfMemory>
    ensures keys { IfOk result (λ r. r.0.items ≡ keys_of items.now) }
    ensures rows { IfOk result (λ r. r.1.items ≡ map (λ (e : K × ℕ). e.1) items.now) }
{
    let mut keys = Vec::with_capacity(alloc, items.len())?;
    let mut rows = Vec::with_capacity(alloc, items.len())?;
    for item in items {
        keys.push(item.0)?;
        rows.push(item.1)?;
    }
    Ok((keys, rows))
}

/// The table of the keys of a list.
pub(crate) fn key_table<K: KeyCode, L: KeyList<K>>(
    alloc: Global,
    list: &L,
) -> Result<KeyTable<K>, OutOfMemory>
    requires few { length (L.list list.now) ≤ MAX_ROWS }
    ensures { IfOk result (IsKeyTable K.eq (L.list list.now)) }
{
    let mut items = keyed(alloc, list)?;
    sort_items(alloc, items.as_mut_slice())?;
    let (keys, rows) = apart(alloc, items.as_slice())?;
    Ok(KeyTable { keys, rows })
}
