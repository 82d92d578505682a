//! The merge of two ascending lists of keys.
ghost use Rattle.std.specs.Prelude.{◌≡◌, ◌+◌, ◌*◌, ◌≤◌, length, IfOk, IsSorted, IsPermutation};
ghost use Rattle.tb_value.specs.Promise.Pairs.{row_numbers, left_first};
ghost use Rattle.tb_merge.specs.Faults.{SettlesCount};
ghost use Rattle.tb_merge.specs.Keys.{AreMergeable, inner_listing, left_listing};
ghost use Rattle.tb_merge.specs.MergedView.{IsMergeOf};
ghost use Rattle.tb_merge.specs.RowPairs.{pairs_of};

use crate::ascend::Ascend;
use crate::by_portion::{left_portions, merge_portions};
use crate::fault::MergeFault;
use crate::pushing::list_for;
use crate::steps::Steps;
use std::alloc::Global;
use std::marker::Model;
use std::sync::ledger::Ledger;
use tb_pool::Exec;
use tb_value::JoinPair;

/// What a merge was. `merge_left` and `merge_inner` alone hand it out, once each time.
#[derive(Drop)]
pub struct Merged {
    left_len: usize,
    right_len: usize,
    pairs: usize,
    comparisons: u64,
}

impl Model for Merged {
    ghost use Rattle.tb_merge.specs.Promise.MergedView.{MergedView};

    ghost Value = { MergedView };

    ghost view = { λ m. record { left_len = m.left_len; right_len = m.right_len; pairs = m.pairs; comparisons = m.comparisons } };
}

impl Merged {
    /// How many left keys there were.
    pub fn left_len(&self) -> usize
        ensures { result ≡ self.now.left_len }
    {
        self.left_len
    }

    /// How many right keys there were.
    pub fn right_len(&self) -> usize
        ensures { result ≡ self.now.right_len }
    {
        self.right_len
    }

    /// How many pairs of rows matched.
    pub fn pairs(&self) -> usize
        ensures { result ≡ self.now.pairs }
    {
        self.pairs
    }

    /// How many comparisons were made: the steps that the merge added to its caller's counter.
    pub fn comparisons(&self) -> u64
        ensures { result ≡ self.now.comparisons }
    {
        self.comparisons
    }
}

// Cuts the left rows in as many portions as there are workers, and lists the pairs of one after another.
fn merge<K: Ascend, L: Ledger>(
    alloc: Global,
    keys: &K,
    keep_unmatched: bool,
    exec: &Exec,
    steps: &mut Steps<L>,
) -> Result<(Vec<JoinPair>, Merged), MergeFault>
    requires keys { AreMergeable (K.left_keys keys.now) (K.right_keys keys.now) (K.ledger keys.now)
        L.name }
    ensures settles { SettlesCount result (length (pairs_of (K.left_keys keys.now) (K.right_keys keys.now) keep_unmatched
        (row_numbers (length (K.left_keys keys.now))))) }
    ensures pairs { IfOk result (λ r. r.0.items ≡ pairs_of (K.left_keys keys.now) (K.right_keys keys.now) keep_unmatched
        (row_numbers (length (K.left_keys keys.now)))) }
    ensures merged { IfOk result (λ r.
        IsMergeOf (K.left_keys keys.now) (K.right_keys keys.now) r.1) }
    ensures counted { IfOk result (λ r. r.1.comparisons + steps.old ≡ steps.new) }
    ensures cost { steps.new ≤ steps.old + 2 * length (K.left_keys keys.now) + length
        (K.right_keys keys.now) }
{
    let left_len = keys.left_len();
    let right_len = keys.right_len();
    let cuts = left_portions(alloc, left_len, exec.workers())?;
    let mut pairs = list_for(alloc, keep_unmatched, left_len)?;
    let end = merge_portions(keys, keep_unmatched, cuts.as_slice(), &mut pairs, steps)?;
    Ok((
        pairs,
        Merged {
            left_len,
            right_len,
            pairs: end.matched,
            comparisons: end.cursor.comparisons,
        },
    ))
}

/// The pairs of a Left join of two ascending lists of keys, by left row and then right row: each left row beside each
/// right row of its key, or alone where there is none. The left rows are cut in as many portions as there are workers,
/// of which each goes on where the one before it ended. All together make at most two comparisons for each left row, and
/// one for each right row, whatever the answer is and however many workers there are. Refuses more than `MAX_ROWS` pairs
/// (TooManyRows).
pub fn merge_left<K: Ascend, L: Ledger>(
    alloc: Global,
    keys: &K,
    exec: &Exec,
    steps: &mut Steps<L>,
) -> Result<(Vec<JoinPair>, Merged), MergeFault>
    requires keys { AreMergeable (K.left_keys keys.now) (K.right_keys keys.now) (K.ledger keys.now)
        L.name }
    ensures settles { SettlesCount result
        (length (left_listing (K.left_keys keys.now) (K.right_keys keys.now))) }
    ensures pairs { IfOk result (λ r.
        IsPermutation (left_listing (K.left_keys keys.now) (K.right_keys keys.now)) r.0.items) }
    ensures order { IfOk result (λ r. IsSorted left_first r.0.items) }
    ensures merged { IfOk result (λ r.
        IsMergeOf (K.left_keys keys.now) (K.right_keys keys.now) r.1) }
    ensures counted { IfOk result (λ r. r.1.comparisons + steps.old ≡ steps.new) }
    ensures cost { steps.new ≤ steps.old + 2 * length (K.left_keys keys.now) + length
        (K.right_keys keys.now) }
{
    merge(alloc, keys, true, exec, steps)
}

/// The pairs of an Inner join of two ascending lists of keys, by left row and then right row: each left row beside each
/// right row of its key. Portions, comparisons and the refusal are those of `merge_left`.
pub fn merge_inner<K: Ascend, L: Ledger>(
    alloc: Global,
    keys: &K,
    exec: &Exec,
    steps: &mut Steps<L>,
) -> Result<(Vec<JoinPair>, Merged), MergeFault>
    requires keys { AreMergeable (K.left_keys keys.now) (K.right_keys keys.now) (K.ledger keys.now)
        L.name }
    ensures settles { SettlesCount result
        (length (inner_listing (K.left_keys keys.now) (K.right_keys keys.now))) }
    ensures pairs { IfOk result (λ r.
        r.0.items ≡ inner_listing (K.left_keys keys.now) (K.right_keys keys.now)) }
    ensures order { IfOk result (λ r. IsSorted left_first r.0.items) }
    ensures merged { IfOk result (λ r.
        IsMergeOf (K.left_keys keys.now) (K.right_keys keys.now) r.1) }
    ensures counted { IfOk result (λ r. r.1.comparisons + steps.old ≡ steps.new) }
    ensures cost { steps.new ≤ steps.old + 2 * length (K.left_keys keys.now) + length
        (K.right_keys keys.now) }
{
    merge(alloc, keys, false, exec, steps)
}
