//! The right rows whose key is a left row's, found by one look ahead.
ghost use Rattle.std.specs.Prelude.{◌≡◌, ◌+◌, ◌^◌, ◌<◌, ◌≤◌, length};
ghost use Rattle.tb_merge.specs.Keys.{AreMergeable, key_at};
ghost use Rattle.tb_merge.specs.Runs.{IsScanned, IsRun, IsCursor};

use crate::ascend::Ascend;
use crate::steps::Steps;
use std::cmp::Ordering;
use std::sync::ledger::Ledger;

/// Where a merge stands: the right rows from `start` to before `end` are those with the last left row's key, and this
/// many comparisons were made so far.
#[derive(Clone, Copy)]
pub struct Cursor {
    pub start: usize,
    pub end: usize,
    pub comparisons: u64,
}

// Looks from the cursor's end on for the right rows whose key is the left row's.
fn scan<K: Ascend, L: Ledger>(keys: &K, row: usize, from: Cursor, steps: &mut Steps<L>) -> Cursor
    requires row { row < length (K.left_keys keys.now) }
    requires keys { AreMergeable (K.left_keys keys.now) (K.right_keys keys.now) (K.ledger keys.now)
        L.name }
    requires few { from.comparisons < 2 ^ 62 }
    requires scanned { IsScanned (K.right_keys keys.now) (key_at (K.left_keys keys.now) row)
        from.end from.end }
    ensures run { IsRun (K.right_keys keys.now) (key_at (K.left_keys keys.now) row) result.start
        result.end }
    ensures cost { steps.new + from.end ≤ steps.old + 1 + result.end }
    ensures counted { result.comparisons + steps.old ≡ from.comparisons + steps.new }
{
    let len = keys.right_len();
    let mut start = from.end;
    let mut comparisons = from.comparisons;
    for end in from.end..len {
        comparisons += 1;
        match keys.cmp(row, end, steps) {
            Ordering::Less => {
                return Cursor {
                    start,
                    end,
                    comparisons,
                };
            }
            Ordering::Equal => {}
            Ordering::Greater => start = end + 1,
        }
    }
    Cursor {
        start,
        end: len,
        comparisons,
    }
}

/// The right rows whose key is that of the left row, where the cursor has those of the left row before it. Equal left
/// rows are compared once each with the first of their right rows, and not with all of them.
pub fn next_run<K: Ascend, L: Ledger>(
    keys: &K,
    row: usize,
    last: Cursor,
    steps: &mut Steps<L>,
) -> Cursor
    requires row { row < length (K.left_keys keys.now) }
    requires keys { AreMergeable (K.left_keys keys.now) (K.right_keys keys.now) (K.ledger keys.now)
        L.name }
    requires few { last.comparisons < 2 ^ 61 }
    requires cursor { IsCursor (K.right_keys keys.now) (key_at (K.left_keys keys.now) row)
        last.start last.end }
    ensures run { IsRun (K.right_keys keys.now) (key_at (K.left_keys keys.now) row) result.start
        result.end }
    ensures cost { steps.new + last.end ≤ steps.old + 2 + result.end }
    ensures counted { result.comparisons + steps.old ≡ last.comparisons + steps.new }
{
    if last.start == last.end {
        return scan(keys, row, last, steps);
    }
    let asked = Cursor {
        start: last.start,
        end: last.end,
        comparisons: last.comparisons + 1,
    };
    match keys.cmp(row, last.start, steps) {
        Ordering::Equal => asked,
        _ => scan(keys, row, asked, steps),
    }
}
