//! Pairs, and the order in which they stand.

use tb_frame::Direction;
use tb_merge::Merged;
use tb_value::JoinPair;

/// The pairs of a listing, and the order in which they stand.
#[derive(Drop)]
pub struct DirectedPairs {
    pub pairs: Vec<JoinPair>,
    pub order: Direction,
}

/// Pairs that were merged, and what the merge was.
#[derive(Drop)]
pub struct MergedPairs {
    pub listed: DirectedPairs,
    pub merged: Merged,
}
