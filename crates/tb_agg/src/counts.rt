//! How many rows the groups have.
ghost use Rattle.std.specs.Prelude.{◌≡◌, ◌≤◌, IfOk, length, map};
ghost use Rattle.tb_value.specs.Promise.Pairs.{row_numbers};
ghost use Rattle.tb_agg.specs.Grouped.{rows_of, AreGroupsOf};

use std::alloc::Global;
use tb_rows::Groups;
use tb_value::{IdxSize, MAX_ROWS, OutOfMemory};

// The number of rows of each group.
pub(crate) fn counts_of(alloc: Global, groups: &Groups) -> Result<Vec<IdxSize>, OutOfMemory>
    requires groups { AreGroupsOf (length groups.now.numbers.items) groups.now }
    requires few { length groups.now.numbers.items ≤ MAX_ROWS }
    ensures { IfOk result (λ v.
        v.items
        ≡ map (λ k. length (rows_of groups.now.numbers.items (length groups.now.numbers.items) k))
        (row_numbers (length groups.now.firsts.items))) }
{
    let numbers = groups.numbers();
    let mut counts = vec![in alloc; 0; groups.firsts().len()]?;
    for place in 0..numbers.len() {
        let group = numbers[place] as usize;
        counts[group] += 1;
    }
    Ok(counts)
}
