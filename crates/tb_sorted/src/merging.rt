//! Two ascending lists of keys, merged.
ghost use Rattle.std.specs.Prelude.{◌≡◌, ◌+◌, ◌*◌, ◌<◌, ◌≤◌, length, IfOk, IsSorted, IsPermutation};
ghost use Rattle.tb_value.specs.Promise.Pairs.{left_first};
ghost use Rattle.tb_frame.specs.declared.args.Direction.TheVariants.{ByLeft};
ghost use Rattle.tb_merge.specs.Faults.{SettlesCount};
ghost use Rattle.tb_merge.specs.MergedView.{IsMergeOf};
ghost use Rattle.tb_sorted.specs.Keys.{AreListsToMerge, number_listing, refusal_of};
ghost use Rattle.tb_sorted.specs.Listed.{AreKeysMerged};

use crate::cells::WholeCell;
use crate::key_lists::NumberList;
use crate::sides::Sides;
use std::alloc::Global;
use std::marker::{Brand, PhantomData, Sync};
use std::sync::ledger::{Blank, Ledger};
use tb_merge::{Ascend, MergeFault, Merged, Steps, merge_inner, merge_left};
use tb_pool::Exec;
use tb_value::{ComputeCause, JoinPair, PolarsError, PolarsResult};

fn refused(fault: MergeFault) -> PolarsError
    ensures { result ≡ refusal_of fault }
{
    match fault {
        MergeFault::TooManyRows => PolarsError::ComputeError(ComputeCause::TooManyRows),
        MergeFault::OutOfMemory => PolarsError::OutOfMemory,
    }
}

// The pairs of a Left join, or of an Inner one, of two lists that ascend, in the order of the left rows.
fn counted_pairs<N: WholeCell, A: NumberList<N>, B: NumberList<N>, L: Ledger + Sync>(
    alloc: Global,
    keep_unmatched: bool,
    left: &A,
    right: &B,
    exec: &Exec,
    blank: Blank,
) -> Result<(Vec<JoinPair>, Merged), MergeFault>
    requires name { blank.name ≡ L.name }
    requires parts { blank.parts ≡ L.parts }
    requires some { 0 < blank.parts }
    requires keys { AreListsToMerge (A.keys left.now) (B.keys right.now) }
    ensures settles { SettlesCount result
        (length (number_listing keep_unmatched (A.keys left.now) (B.keys right.now))) }
    ensures pairs { IfOk result (λ r.
        IsPermutation (number_listing keep_unmatched (A.keys left.now) (B.keys right.now))
        r.0.items) }
    ensures order { IfOk result (λ r. IsSorted left_first r.0.items) }
    ensures merged { IfOk result (λ r. IsMergeOf (A.keys left.now) (B.keys right.now) r.1) }
    ensures cost { IfOk result (λ r.
        r.1.comparisons ≤ 2 * length (A.keys left.now) + length (B.keys right.now)) }
{
    let mut steps = Steps::<L>::open(blank);
    let keys = Sides::<N, A, B, L> {
        left,
        right,
        stored: PhantomData,
        ledger: PhantomData,
    };
    if keep_unmatched {
        merge_left(alloc, &keys, exec, &mut steps)
    } else {
        merge_inner(alloc, &keys, exec, &mut steps)
    }
}

/// The pairs of a Left join, or of an Inner one, of two lists that ascend, in the order of the left rows.
pub(crate) fn merged_lists<N: WholeCell, A: NumberList<N>, B: NumberList<N>>(
    alloc: Global,
    keep_unmatched: bool,
    left: &A,
    right: &B,
    exec: &Exec,
) -> PolarsResult<(Vec<JoinPair>, Merged)>
    requires keys { AreListsToMerge (A.keys left.now) (B.keys right.now) }
    ensures { AreKeysMerged ByLeft keep_unmatched (A.keys left.now) (B.keys right.now) result }
{
    let counted = counted_pairs::<N, A, B, Brand>(
        alloc,
        keep_unmatched,
        left,
        right,
        exec,
        Blank::new(1),
    );
    match counted {
        Ok(done) => Ok(done),
        Err(fault) => Err(refused(fault)),
    }
}
