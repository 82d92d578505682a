//! Joins of two tables, and the laws over their definitions.
#![tactic(auto)]

mod coalescing;
mod frame_join;
mod general;
mod kept;
pub mod laws;
mod names;
mod row_order;

pub use coalescing::coalesced_left;
pub use frame_join::{DataFrameJoinOps, join_columns};
pub use general::finish_join;
pub use kept::{parted, side_rows};
pub use names::side_by_side;
pub use tb_pairs::{JoinTrace, private_left_join_multiple_keys};
