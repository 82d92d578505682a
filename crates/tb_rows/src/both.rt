//! Rows in groups by two groupings at once.
ghost use Rattle.std.specs.Prelude.{◌≡◌, ◌+◌, ◌<◌, ◌≤◌, All, IfOk, IfSome, length};
ghost use Rattle.tb_rows.specs.Both.{in_both, kept_or, AreLedBelow, ArePairs};
ghost use Rattle.tb_rows.specs.Coded.{AreLeaders};
ghost use Rattle.tb_rows.specs.Grouped.{AreGroups};

use crate::grouping::led_groups;
use crate::groups::Groups;
use std::alloc::Global;
use tb_value::{IdxSize, MAX_ROWS, NullableIdxSize, OutOfMemory};

// The first row with the numbers of a row: the one that is kept for its first number, if it has the second one, or the row itself.
fn kept_or(kept: NullableIdxSize, seconds: &[IdxSize], row: IdxSize) -> IdxSize
    requires row { row < length seconds.now }
    requires kept { IfSome kept (λ i. i < length seconds.now) }
    ensures { result ≡ kept_or kept seconds.now row }
{
    match kept.row() {
        Some(first) if seconds[first as usize] == seconds[row as usize] => first,
        _ => row,
    }
}

// Gives the rows of a group of the second grouping their leaders. For each number of the first grouping the row is kept that
// had it last and leads itself.
fn lead_rows(
    numbers: &[IdxSize],
    second: &Groups,
    group: usize,
    kept: &mut Vec<NullableIdxSize>,
    leaders: &mut Vec<IdxSize>,
)
    requires group { group < length second.now.firsts.items }
    requires few { length numbers.now ≤ MAX_ROWS }
    requires pairs { ArePairs numbers.now second.now.numbers.items (length kept.old.items) }
    requires led { AreLedBelow numbers.now second.now.numbers.items group kept.old.items
        leaders.old.items }
    ensures kept { length kept.new.items ≡ length kept.old.items }
    ensures led { AreLedBelow numbers.now second.now.numbers.items (group + 1) kept.new.items
        leaders.new.items }
{
    let rows = second.rows(group);
    for at in 0..rows.len() {
        let row = rows[at];
        let number = numbers[row as usize] as usize;
        let leader = kept_or(kept[number], second.numbers(), row);
        kept[number] = NullableIdxSize::some(leader);
        leaders[row as usize] = leader;
    }
}

// For each row the first one that is in its groups.
fn both_leaders(alloc: Global, first: &Groups, second: &Groups) -> Result<Vec<IdxSize>, OutOfMemory>
    requires few { length first.now.numbers.items ≤ MAX_ROWS }
    requires pairs { ArePairs first.now.numbers.items second.now.numbers.items
        (length first.now.firsts.items) }
    requires below { All (λ k. k < length second.now.firsts.items) second.now.numbers.items }
    ensures { IfOk result (λ v.
        AreLeaders (in_both first.now second.now) (length first.now.numbers.items) v.items) }
{
    let mut kept = vec![in alloc; NullableIdxSize::null(); first.len()]?;
    let mut leaders = Vec::new(alloc);
    leaders.resize(first.numbers().len(), 0u32)?;
    for group in 0..second.len() {
        lead_rows(first.numbers(), second, group, &mut kept, &mut leaders);
    }
    Ok(leaders)
}

/// Rows in groups of those that are in one group by the first grouping and in one by the second. No value is read, and it
/// takes as many steps as there are rows and groups.
///
/// # Errors
///
/// `OutOfMemory` where memory is wanting.
pub fn group_both(alloc: Global, first: &Groups, second: &Groups) -> Result<Groups, OutOfMemory>
    requires long { length second.now.numbers.items ≡ length first.now.numbers.items }
    requires few { length first.now.numbers.items ≤ MAX_ROWS }
    requires first { All (λ k. k < length first.now.firsts.items) first.now.numbers.items }
    requires second { All (λ k. k < length second.now.firsts.items) second.now.numbers.items }
    ensures { IfOk result
        (AreGroups (in_both first.now second.now) (length first.now.numbers.items)) }
{
    let leaders = both_leaders(alloc, first, second)?;
    led_groups(alloc, leaders)
}
