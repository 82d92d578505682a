//! The pairs of a join by one key of whole numbers whose order is known: merged, and not hashed.
#![tactic(auto)]

mod cells;
mod key_lists;
mod merging;
mod one_chunk;
mod one_sorted;
mod pairs;
mod path;
mod requested;
mod row_sorting;
mod sides;
mod typed;

pub use pairs::{DirectedPairs, MergedPairs};
pub use requested::merged_pairs;
