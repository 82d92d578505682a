//! The rows of two tables, taken up: their ids under their keys, and then the rows themselves.
//!
//! Rows of one key are found together by a sort, so that its group is looked up once and not for each of them.
ghost use Rattle.std.specs.Prelude.{◌≡◌, ◌<◌, ◌∷◌, [], ◌++◌, ◌&&◌, if◌then◌else◌, All, None, OnOk, IfOk, length, map, slice_index_or};
ghost use Rattle.std.specs.BTreeMap.{IsFromIterResult};
ghost use Rattle.std.specs.List.{enumerate_from};
ghost use Rattle.std.specs.Map.{keys_of};
ghost use Rattle.std.specs.Ordering.{nat_cmp};
ghost use Rattle.tb_value.specs.Promise.Pairs.{row_numbers};
ghost use Rattle.tb_value.specs.Promise.Same.{agrees};
ghost use Rattle.tb_value.specs.See.{data_of, datum};
ghost use Rattle.tb_value.specs.declared.error.Side.{Side};
ghost use Rattle.tb_chunk.specs.Promise.Col.{values};
ghost use Rattle.tb_frame.specs.Promise.Refusal.{unknown_key};
ghost use Rattle.tb_frame.specs.Promise.Table.{IsTable, height, row_at, table_of};
ghost use Rattle.tb_numbered.specs.Numbered.{numbered_rows};
ghost use Rattle.tb_rows.specs.Grouped.{AreGroups};
ghost use Rattle.tb_rows.specs.Promise.Rows.{same_rows};
ghost use Rattle.tb_delta.specs.Groups.{ids_at, is_side};
ghost use Rattle.tb_delta.specs.Inside.{agreeing, side_state, stored, AreRows, IsPlaced};
ghost use Rattle.tb_delta.specs.Promise.State.{side_of};
ghost use Rattle.tb_delta.specs.TakenUp.{rows_agreeing, value_at, HasKeyAt};
ghost use Rattle.tb_delta.specs.declared.key.RowKey.{RowKey};

use crate::groups::Groups;
use crate::key::RowKey;
use crate::making::{fields_of, place_of, row_at};
use crate::side_rows::{SideRows, StoredRow};
use crate::steps::is_grouped;
use std::alloc::{AllocError, Global};
use std::collections::BTreeMap;
use tb_frame::DataFrame;
use tb_rows::{Groups as EqualRows, group_rows};
use tb_store::{Column, Series};
use tb_value::{OutOfMemory, PlSmallStr, Side};

// THE KEYS

// The rows of a column in groups of one value. Columns of several chunks are joined first, since a row of theirs is found in as
// many steps.
fn equal_rows(alloc: Global, column: &Series) -> Result<EqualRows, OutOfMemory>
    ensures { IfOk result
        (AreGroups (same_rows (values column.now ∷ [])) (length (values column.now))) }
{
    if column.n_chunks() == 1 {
        return group_rows(alloc, &[column], column.len());
    }
    let whole = column.rechunk(alloc)?;
    group_rows(alloc, &[&whole], whole.len())
}

// The key of a row.
fn key_at(alloc: Global, column: &Series, row: usize) -> Result<RowKey, OutOfMemory>
    requires { row < length (values column.now) }
    ensures { IfOk result (λ k. datum k.value ≡ value_at (values column.now) row) }
{
    Ok(RowKey {
        value: column.get(row).to_value(alloc)?,
    })
}

// Puts the ids of the rows of one value under it, if it is in a group.
fn add_group(
    alloc: Global,
    groups: &mut Groups,
    side: Side,
    join_nulls: bool,
    column: &Series,
    rows: &EqualRows,
    group: usize,
) -> Result<(), OutOfMemory>
    requires rows { AreGroups (same_rows (values column.now ∷ [])) (length (values column.now))
        rows.now }
    requires group { group < length rows.now.firsts.items }
    ensures { OnOk result ((s : Side) → (k : RowKey) → ids_at groups.new s k
        ≡ (if is_side side s
        && agrees join_nulls
        (value_at (values column.now) (slice_index_or rows.now.firsts.items group 0))
        (datum k.value)
        then ids_at groups.old s k ++ numbered_rows rows.now.numbers.items group
        else ids_at groups.old s k)) }
{
    let key = key_at(alloc, column, rows.firsts()[group] as usize)?;
    if is_grouped(join_nulls, &key) {
        return groups.add_all(alloc, side, key, rows.rows(group));
    }
    Ok(())
}

// Puts the ids of the rows of a column, which are 0, 1, 2 and so on, under their values.
fn add_column(
    alloc: Global,
    groups: &mut Groups,
    side: Side,
    join_nulls: bool,
    column: &Series,
) -> Result<(), OutOfMemory>
    requires { (k : RowKey) → ids_at groups.old side k ≡ [] }
    ensures { OnOk result ((s : Side) → (k : RowKey) → ids_at groups.new s k
        ≡ (if is_side side s
        then rows_agreeing join_nulls (values column.now) (datum k.value)
        else ids_at groups.old s k)) }
{
    let rows = equal_rows(alloc, column)?;
    for group in 0..rows.len() {
        add_group(alloc, groups, side, join_nulls, column, &rows, group)?;
    }
    Ok(())
}

/// Puts the ids of the rows of a table, which are 0, 1, 2 and so on, under their keys.
pub(crate) fn add_keys(
    alloc: Global,
    groups: &mut Groups,
    side: Side,
    join_nulls: bool,
    frame: &DataFrame,
    on: &PlSmallStr,
) -> Result<(), OutOfMemory>
    requires known { unknown_key (table_of frame.now) (on.now ∷ []) ≡ None }
    requires none { (k : RowKey) → ids_at groups.old side k ≡ [] }
    ensures { OnOk result ((s : Side) → (k : RowKey) → ids_at groups.new s k
        ≡ (if is_side side s
        then agreeing join_nulls (side_of (table_of frame.now) on.now) (datum k.value)
        else ids_at groups.old s k)) }
{
    let column = &frame.get_columns()[place_of(frame, on)];
    add_column(
        alloc,
        groups,
        side,
        join_nulls,
        column.as_materialized_series(),
    )
}

// THE ROWS

// A row of a table, and beside it its key.
fn stored_row(
    alloc: Global,
    columns: &[Column],
    row: usize,
    key: usize,
) -> Result<StoredRow, OutOfMemory>
    requires table { IsTable (table_of columns.now) }
    requires row { row < height (table_of columns.now) }
    requires key { key < length columns.now }
    ensures row { IfOk result (λ s.
        data_of s.values.items ≡ row_at (table_of columns.now) row) }
    ensures keyed { IfOk result (λ s. HasKeyAt key (row, s)) }
{
    let values = row_at(alloc, columns, row)?;
    let key = RowKey::of(alloc, &values[key])?;
    Ok(StoredRow { key, values })
}

// The rows of a table under the ids 0, 1, 2 and so on.
fn listed_rows(
    alloc: Global,
    frame: &DataFrame,
    key: usize,
) -> Result<Vec<(u32, StoredRow)>, OutOfMemory>
    requires { key < length frame.now }
    ensures rows { IfOk result (λ v.
        map stored v.items
        ≡ enumerate_from 0
        (map (row_at (table_of frame.now)) (row_numbers (height (table_of frame.now))))) }
    ensures ids { IfOk result (λ v. keys_of v.items ≡ row_numbers (height (table_of frame.now))) }
    ensures keyed { IfOk result (λ v. All (HasKeyAt key) v.items) }
{
    let columns = frame.get_columns();
    let mut listed = Vec::with_capacity(alloc, frame.height())?;
    for row in 0..frame.height() {
        listed.push((row as u32, stored_row(alloc, columns, row, key)?))?;
    }
    Ok(listed)
}

// The entries as a map.
fn collected(
    alloc: Global,
    entries: Vec<(u32, StoredRow)>,
) -> Result<BTreeMap<u32, StoredRow>, AllocError>
    ensures { IfOk result (IsFromIterResult nat_cmp entries.items) }
{
    entries.into_iter().collect(alloc)
}

// The same entries as a map, whose nodes are full: it is made at once, and not row by row.
fn map_of(
    alloc: Global,
    entries: Vec<(u32, StoredRow)>,
) -> Result<BTreeMap<u32, StoredRow>, OutOfMemory>
    requires { keys_of entries.items ≡ row_numbers (length entries.items) }
    ensures { IfOk result (λ m. m.entries ≡ entries.items) }
{
    Ok(collected(alloc, entries)?)
}

/// The rows of a table under the ids 0, 1, 2 and so on.
pub(crate) fn side_rows(
    alloc: Global,
    frame: &DataFrame,
    on: PlSmallStr,
) -> Result<SideRows, OutOfMemory>
    requires { unknown_key (table_of frame.now) (on ∷ []) ≡ None }
    ensures state { IfOk result (λ s. side_state s ≡ side_of (table_of frame.now) on) }
    ensures placed { IfOk result (λ s. IsPlaced s) }
    ensures kept { IfOk result (λ s. AreRows (side_state s)) }
{
    let columns = fields_of(alloc, frame.get_columns())?;
    let key = place_of(frame, &on);
    let rows = map_of(alloc, listed_rows(alloc, frame, key)?)?;
    Ok(SideRows {
        columns,
        on,
        key,
        rows,
        ever: frame.height() as u32,
    })
}
