//! The keys of two sides, whose comparisons are counted.

use crate::cells::WholeCell;
use crate::key_lists::NumberList;
use std::cmp::Ordering;
use std::marker::{PhantomData, Sync};
use std::sync::ledger::Ledger;
use tb_merge::{Ascend, Steps};

/// Two lists of keys that are stored as Ns, whose comparisons are counted in the ledger L.
#[derive(Clone, Copy)]
pub(crate) struct Sides<'a, N: WholeCell, A, B, L: Ledger + Sync> {
    pub left: &'a A,
    pub right: &'a B,
    pub stored: PhantomData<N>,
    pub ledger: PhantomData<L>,
}

impl<N: WholeCell, A: NumberList<N>, B: NumberList<N>, L: Ledger + Sync> Ascend
    for Sides<'_, N, A, B, L> {
    ghost left_keys = { λ s. A.keys s.left.now };

    ghost right_keys = { λ s. B.keys s.right.now };

    ghost ledger = { λ _. L.name };

    fn left_len(&self) -> usize {
        self.left.len()
    }

    fn right_len(&self) -> usize {
        self.right.len()
    }

    fn cmp<M: Ledger>(&self, left: usize, right: usize, steps: &mut Steps<M>) -> Ordering {
        steps.tick();
        self.left.key(left).cmp(&self.right.key(right))
    }
}
