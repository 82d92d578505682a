//! The rows whose values stand for groups.
ghost use Rattle.std.specs.Prelude.{◌≡◌, ◌<◌, IfOk, length, map};
ghost use Rattle.tb_value.specs.See.{lent_value};
ghost use Rattle.tb_chunk.specs.Promise.Col.{values};
ghost use Rattle.tb_chunk.specs.Rows.{value_or_null, IsRowOf};
ghost use Rattle.tb_agg.specs.Promise.Aggregates.{beats};
ghost use Rattle.tb_rows.specs.Names.{name_of};
ghost use Rattle.tb_agg.specs.Grouped.{rows_by_group, AreGroupsOf};
ghost use Rattle.tb_agg.specs.Named.{AreRowsOf};
ghost use Rattle.tb_agg.specs.Picking.{next_pick, picked_row, replaces};

use std::alloc::Global;
use tb_rows::{Groups, RowNames};
use tb_store::{Series, compare_values};
use tb_value::{IdxSize, NullableIdxSize, OutOfMemory, ValueRef};

/// Which row of a group stands for it.
#[derive(Clone, Copy)]
pub(crate) enum Pick {
    FirstRow,
    LastRow,
    LeastValue,
    GreatestValue,
}

fn beats(best: ValueRef<'_>, value: ValueRef<'_>, greatest: bool) -> bool
    ensures { result ≡ beats greatest (lent_value best.entry) (lent_value value.entry) }
{
    match (best, value) {
        (_, ValueRef::Null) => false,
        (ValueRef::Null, _) => true,
        _ if greatest => compare_values(best, value).is_lt(),
        _ => compare_values(value, best).is_lt(),
    }
}

// The value of a row, and Null of none.
fn value_or_null(column: &Series, row: NullableIdxSize) -> ValueRef<'_>
    requires { IsRowOf (length (values column.now)) row }
    ensures { lent_value result ≡ value_or_null (values column.now) row }
{
    match row.row() {
        Some(row) => column.get(row as usize),
        None => ValueRef::Null,
    }
}

fn replaces(pick: Pick, column: &Series, best: NullableIdxSize, row: IdxSize) -> bool
    requires best { IsRowOf (length (values column.now)) best }
    requires row { row < length (values column.now) }
    ensures { result ≡ replaces pick (values column.now) best row }
{
    match pick {
        Pick::FirstRow => best.is_null_idx(),
        Pick::LastRow => true,
        Pick::LeastValue => beats(value_or_null(column, best), column.get(row as usize), false),
        Pick::GreatestValue => beats(value_or_null(column, best), column.get(row as usize), true),
    }
}

fn next_pick(pick: Pick, column: &Series, best: NullableIdxSize, row: IdxSize) -> NullableIdxSize
    requires best { IsRowOf (length (values column.now)) best }
    requires row { row < length (values column.now) }
    ensures next { result ≡ next_pick pick (values column.now) best row }
    ensures within { IsRowOf (length (values column.now)) result }
{
    let _len = column.len();
    if replaces(pick, column, best, row) {
        NullableIdxSize::some(row)
    } else {
        best
    }
}

// For each group the row that stands for it, of rows that are named.
pub(crate) fn picked_rows(
    alloc: Global,
    column: &Series,
    names: RowNames<'_>,
    groups: &Groups,
    pick: Pick,
) -> Result<Vec<NullableIdxSize>, OutOfMemory>
    requires rows { AreRowsOf names (length groups.now.numbers.items) (length (values column.now)) }
    requires groups { AreGroupsOf (length groups.now.numbers.items) groups.now }
    ensures { IfOk result (λ v. v.items
        ≡ map (picked_row pick (values column.now))
        (rows_by_group (name_of names.entry) groups.now)) }
{
    let numbers = groups.numbers();
    let mut picked = vec![in alloc; NullableIdxSize::null(); groups.firsts().len()]?;
    for place in 0..numbers.len() {
        let group = numbers[place] as usize;
        picked[group] = next_pick(pick, column, picked[group], names.name(place));
    }
    Ok(picked)
}
