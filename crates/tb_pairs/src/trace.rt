//! Pairs, and how they were found.

use tb_hash::Built;
use tb_merge::Merged;
use tb_sorted::DirectedPairs;
use tb_value::JoinPair;

/// How a join went.
#[derive(Drop)]
pub enum JoinTrace {
    /// By hash tables of one side, which were built so.
    Hash(Built),
    /// By a merge of both sides' keys.
    Merge(Merged),
    /// Field by field, as some row is too long for a key.
    Plain,
}

/// The pairs of a request as they are found, and how they were found.
#[derive(Drop)]
pub struct FoundPairs {
    pub listed: DirectedPairs,
    pub trace: JoinTrace,
}

/// The pairs of a request in the order that is asked, and how they were found.
#[derive(Drop)]
pub struct ListedPairs {
    pub pairs: Vec<JoinPair>,
    pub trace: JoinTrace,
}
