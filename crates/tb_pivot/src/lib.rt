//! Tables made wide: what a pivot is, how its columns are called, the columns that a request names, and the call itself.
#![tactic(auto)]

mod asking;
mod blocks;
mod cells;
mod expr;
mod frame_pivot;
mod grid;
mod headers;
pub mod laws;
mod lookup;
mod maker;
mod naming;
mod whole;
mod wide;

pub use expr::{ExprFault, PhysicalAggExpr, PivotAgg};
pub use frame_pivot::{pivot, pivot_by, pivot_stable};
pub use maker::CellMaker;
pub use tb_agg::Aggregate;
