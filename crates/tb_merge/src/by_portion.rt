//! The left rows' pairs, one portion of the left rows after another.
ghost use Rattle.std.specs.Prelude.{◌≡◌, ◌+◌, ◌*◌, ◌<◌, ◌≤◌, [], length, IfOk};
ghost use Rattle.tb_value.specs.Promise.Pairs.{row_numbers};
ghost use Rattle.tb_merge.specs.Faults.{GivesUpFor};
ghost use Rattle.tb_merge.specs.Keys.{AreMergeable};
ghost use Rattle.tb_merge.specs.Progress.{IsMergedTo};
ghost use Rattle.tb_merge.specs.RowPairs.{pairs_of, portion_rows};

use crate::ascend::Ascend;
use crate::fault::MergeFault;
use crate::pushing::push_row;
use crate::runs::{Cursor, next_run};
use crate::steps::Steps;
use std::alloc::Global;
use std::sync::ledger::Ledger;
use tb_pool::portions;
use tb_value::{IdxSize, JoinPair, OutOfMemory};

/// How far a merge is: the left rows before `row` are merged, and so many pairs of them matched.
#[derive(Clone, Copy)]
pub struct Progress {
    pub row: usize,
    pub cursor: Cursor,
    pub matched: usize,
}

/// The portions of the left rows, one for each worker.
pub fn left_portions(
    alloc: Global,
    left_len: usize,
    workers: u32,
) -> Result<Vec<(usize, usize)>, OutOfMemory>
    requires { 1 ≤ workers }
    ensures count { IfOk result (λ v. length v.items ≡ workers) }
    ensures rows { IfOk result (λ v. portion_rows v.items ≡ row_numbers left_len) }
{
    portions(alloc, left_len, workers)
}

// Merges the next left row: puts its pairs behind the others.
fn merge_row<K: Ascend, L: Ledger>(
    keys: &K,
    keep_unmatched: bool,
    from: Progress,
    pairs: &mut Vec<JoinPair>,
    steps: &mut Steps<L>,
) -> Result<Progress, MergeFault>
    requires keys { AreMergeable (K.left_keys keys.now) (K.right_keys keys.now) (K.ledger keys.now)
        L.name }
    requires row { from.row < length (K.left_keys keys.now) }
    requires so_far { IsMergedTo (K.left_keys keys.now) (K.right_keys keys.now) keep_unmatched
        pairs.old.items from }
    ensures gives_up { GivesUpFor result (length (pairs_of (K.left_keys keys.now) (K.right_keys keys.now) keep_unmatched
        (row_numbers (length (K.left_keys keys.now))))) }
    ensures row { IfOk result (λ at. at.row ≡ from.row + 1) }
    ensures merged { IfOk result (λ at. IsMergedTo (K.left_keys keys.now) (K.right_keys keys.now)
        keep_unmatched pairs.new.items at) }
    ensures counted { IfOk result (λ at.
        at.cursor.comparisons + steps.old ≡ from.cursor.comparisons + steps.new) }
    ensures cost { steps.new + from.cursor.comparisons
        ≤ steps.old + 2 * length (K.left_keys keys.now) + length (K.right_keys keys.now) }
{
    let row = from.row;
    let cursor = next_run(keys, row, from.cursor, steps);
    push_row(
        pairs,
        keep_unmatched,
        row as IdxSize,
        cursor.start,
        cursor.end,
    )?;
    Ok(Progress {
        row: row + 1,
        cursor,
        matched: from.matched + (cursor.end - cursor.start),
    })
}

// Merges the next `len` left rows, from where the merge is.
fn merge_portion<K: Ascend, L: Ledger>(
    keys: &K,
    keep_unmatched: bool,
    len: usize,
    from: Progress,
    pairs: &mut Vec<JoinPair>,
    steps: &mut Steps<L>,
) -> Result<Progress, MergeFault>
    requires keys { AreMergeable (K.left_keys keys.now) (K.right_keys keys.now) (K.ledger keys.now)
        L.name }
    requires rows { from.row + len ≤ length (K.left_keys keys.now) }
    requires so_far { IsMergedTo (K.left_keys keys.now) (K.right_keys keys.now) keep_unmatched
        pairs.old.items from }
    ensures gives_up { GivesUpFor result (length (pairs_of (K.left_keys keys.now) (K.right_keys keys.now) keep_unmatched
        (row_numbers (length (K.left_keys keys.now))))) }
    ensures row { IfOk result (λ at. at.row ≡ from.row + len) }
    ensures merged { IfOk result (λ at. IsMergedTo (K.left_keys keys.now) (K.right_keys keys.now)
        keep_unmatched pairs.new.items at) }
    ensures counted { IfOk result (λ at.
        at.cursor.comparisons + steps.old ≡ from.cursor.comparisons + steps.new) }
    ensures cost { steps.new + from.cursor.comparisons
        ≤ steps.old + 2 * length (K.left_keys keys.now) + length (K.right_keys keys.now) }
{
    let mut at = from;
    for row in 0..len {
        at = merge_row(keys, keep_unmatched, at, pairs, steps)?;
    }
    Ok(at)
}

/// Merges these portions of the left rows, each an offset and a length, which are all of them in order. Each goes on
/// where the one before it ended, so that no right row is passed twice.
pub fn merge_portions<K: Ascend, L: Ledger>(
    keys: &K,
    keep_unmatched: bool,
    cuts: &[(usize, usize)],
    pairs: &mut Vec<JoinPair>,
    steps: &mut Steps<L>,
) -> Result<Progress, MergeFault>
    requires keys { AreMergeable (K.left_keys keys.now) (K.right_keys keys.now) (K.ledger keys.now)
        L.name }
    requires rows { portion_rows cuts.now ≡ row_numbers (length (K.left_keys keys.now)) }
    requires none { pairs.old.items ≡ [] }
    ensures gives_up { GivesUpFor result (length (pairs_of (K.left_keys keys.now) (K.right_keys keys.now) keep_unmatched
        (row_numbers (length (K.left_keys keys.now))))) }
    ensures row { IfOk result (λ at. at.row ≡ length (K.left_keys keys.now)) }
    ensures merged { IfOk result (λ at. IsMergedTo (K.left_keys keys.now) (K.right_keys keys.now)
        keep_unmatched pairs.new.items at) }
    ensures counted { IfOk result (λ at. at.cursor.comparisons + steps.old ≡ steps.new) }
    ensures cost { steps.new ≤ steps.old + 2 * length (K.left_keys keys.now) + length
        (K.right_keys keys.now) }
{
    let mut at = Progress {
        row: 0,
        cursor: Cursor {
            start: 0,
            end: 0,
            comparisons: 0,
        },
        matched: 0,
    };
    for cut in cuts {
        at = merge_portion(keys, keep_unmatched, cut.1, at, pairs, steps)?;
    }
    Ok(at)
}
