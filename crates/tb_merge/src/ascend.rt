//! Keys that are asked by counted comparisons alone.
ghost use Rattle.std.specs.Prelude.{◌≡◌, ◌+◌, ◌<◌, ℕ, ℤ, List, length};
ghost use Rattle.std.specs.Ordering.{int_cmp};
ghost use Rattle.tb_merge.specs.Keys.{key_at};

use crate::steps::Steps;
use std::cmp::Ordering;
use std::marker::Sync;
use std::sync::ledger::Ledger;

/// The keys of two sides, a list of whole numbers each. They are compared by `cmp` alone, which counts each time that it
/// is asked. All of them are counted in one ledger, so that no comparison is hidden in a counter of another.
pub trait Ascend: Sync {
    ghost left_keys: { Self → List ℤ };

    ghost right_keys: { Self → List ℤ };

    // the name of the ledger in which comparisons are counted
    ghost ledger: { Self → ℕ };

    /// How many left keys there are.
    fn left_len(&self) -> usize
        ensures { result ≡ length (left_keys self.now) };

    /// How many right keys there are.
    fn right_len(&self) -> usize
        ensures { result ≡ length (right_keys self.now) };

    /// How the key of a left row stands to the key of a right row: Less where it is the lesser. Adds one step.
    fn cmp<L: Ledger>(&self, left: usize, right: usize, steps: &mut Steps<L>) -> Ordering
        requires left { left < length (left_keys self.now) }
        requires right { right < length (right_keys self.now) }
        requires ledger { L.name ≡ ledger self.now }
        ensures order { result
            ≡ int_cmp (key_at (left_keys self.now) left) (key_at (right_keys self.now) right) }
        ensures step { steps.new ≡ steps.old + 1 };
}
