//! Tables made long: some columns put one below the other, with their names and the other columns beside them.
#![tactic(auto)]

mod blocks;
mod columns;
mod frame_unpivot;
pub mod laws;
mod lookup;

pub use blocks::LongBlocks;
pub use frame_unpivot::{UnpivotArgsIR, UnpivotDF, long_blocks};
