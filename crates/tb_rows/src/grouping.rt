//! Rows in groups.
ghost use Rattle.std.specs.Prelude.{◌≡◌, ◌<◌, ◌≤◌, ◌∷◌, [], ◌++◌, false, if◌then◌else◌, IfOk, OnOk, cond, length, map, slice_index_or};
ghost use Rattle.tb_chunk.specs.Promise.Col.{values};
ghost use Rattle.tb_rows.specs.Coded.{led_alike, AreLeaders};
ghost use Rattle.tb_rows.specs.Grouped.{AreGroups};
ghost use Rattle.tb_rows.specs.InGroups.{listed_test, named_rows};
ghost use Rattle.tb_rows.specs.Names.{name_of, AreNamed};
ghost use Rattle.tb_rows.specs.Promise.Rows.{first_rows, group_of, same_rows};
ghost use Rattle.tb_value.specs.Promise.Pairs.{row_numbers};

use crate::coded::leaders;
use crate::groups::Groups;
use crate::names::RowNames;
use std::alloc::Global;
use tb_store::Series;
use tb_value::{IdxSize, MAX_ROWS, OutOfMemory};

// Appends a row where it is the first of its group.
fn push_first(firsts: &mut Vec<IdxSize>, row: IdxSize, is_first: bool) -> Result<(), OutOfMemory>
    ensures { OnOk result (firsts.new.items ≡ firsts.old.items ++ cond is_first (row ∷ []) []) }
{
    if !is_first {
        return Ok(());
    }
    firsts.push(row)?;
    Ok(())
}

// The number of the group that a row is in: a new one where it is the first, and else that of the group's first row.
fn number_of(firsts: &[IdxSize], numbers: &[IdxSize], leader: usize, is_first: bool) -> IdxSize
    requires few { length firsts.now ≤ MAX_ROWS }
    requires there { is_first ≡ false → leader < length numbers.now }
    ensures { result
        ≡ (if is_first then length firsts.now else slice_index_or numbers.now leader 0) }
{
    if is_first {
        return firsts.len() as IdxSize;
    }
    numbers[leader]
}

// The first row of each group, and for each row the number of its group.
#[derive(Drop)]
struct LedNumbers {
    firsts: Vec<IdxSize>,
    numbers: Vec<IdxSize>,
}

// Those of rows in groups of one leader.
fn led_numbers(alloc: Global, leaders: &[IdxSize]) -> Result<LedNumbers, OutOfMemory>
    requires leaders { AreLeaders (led_alike leaders.now) (length leaders.now) leaders.now }
    requires few { length leaders.now ≤ MAX_ROWS }
    ensures firsts { IfOk result (λ n.
        n.firsts.items ≡ first_rows (led_alike leaders.now) (length leaders.now)) }
    ensures numbers { IfOk result (λ n.
        n.numbers.items
        ≡ map (group_of (led_alike leaders.now) (length leaders.now))
        (row_numbers (length leaders.now))) }
{
    let mut firsts = Vec::new(alloc);
    let mut numbers = Vec::with_capacity(alloc, leaders.len())?;
    for place in 0..leaders.len() {
        let leader = leaders[place] as usize;
        let is_first = leader == place;
        let number = number_of(firsts.as_slice(), numbers.as_slice(), leader, is_first);
        push_first(&mut firsts, place as IdxSize, is_first)?;
        numbers.push(number)?;
    }
    Ok(LedNumbers { firsts, numbers })
}

// Rows of one leader in groups.
pub(crate) fn led_groups(alloc: Global, leaders: Vec<IdxSize>) -> Result<Groups, OutOfMemory>
    requires leaders { AreLeaders (led_alike leaders.items) (length leaders.items) leaders.items }
    requires few { length leaders.items ≤ MAX_ROWS }
    ensures { IfOk result (AreGroups (led_alike leaders.items) (length leaders.items)) }
{
    let LedNumbers { firsts, numbers } = led_numbers(alloc, &leaders)?;
    drop(leaders);
    Groups::of_numbers(alloc, firsts, numbers)
}

// The places of rows that are called so in groups.
fn group_named(
    alloc: Global,
    columns: &[&Series],
    names: RowNames<'_>,
    len: usize,
) -> Result<Groups, OutOfMemory>
    requires { AreNamed names len }
    ensures { IfOk result
        (AreGroups
        (named_rows (name_of names.entry) (same_rows (map (λ c. values c.now) columns.now)))
        len) }
{
    let leaders = leaders(alloc, columns, names, len)?;
    led_groups(alloc, leaders)
}

/// Rows `0..height` in groups of the same values of the columns, Null the same as Null; past the end of a column its
/// values are Null. A value is found in at most as many steps as its column has chunks.
///
/// # Errors
///
/// `OutOfMemory` where memory is wanting.
pub fn group_rows(alloc: Global, columns: &[&Series], height: usize) -> Result<Groups, OutOfMemory>
    requires { height ≤ MAX_ROWS }
    ensures { IfOk result (AreGroups (same_rows (map (λ c. values c.now) columns.now)) height) }
{
    group_named(alloc, columns, RowNames::From(0), height)
}

/// The places of these rows in groups of the same values of the columns, as `group_rows` has them: the first place of each
/// group, and for each place its group.
///
/// # Errors
///
/// `OutOfMemory` where memory is wanting.
pub fn group_listed(
    alloc: Global,
    columns: &[&Series],
    rows: &[IdxSize],
) -> Result<Groups, OutOfMemory>
    requires { length rows.now ≤ MAX_ROWS }
    ensures { IfOk result
        (AreGroups (listed_test rows.now (same_rows (map (λ c. values c.now) columns.now)))
        (length rows.now)) }
{
    group_named(alloc, columns, RowNames::Listed(rows), rows.len())
}
