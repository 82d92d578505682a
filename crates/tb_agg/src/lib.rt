//! Columns of one value for each group of rows: the first or the last one, a sum, the least or the greatest, a count.
#![tactic(auto)]

mod by_groups;
mod counts;
mod kept;
pub mod laws;
mod made;
mod picks;
mod places;
mod running;
mod sums;
mod table;

pub use by_groups::aggregated;
pub use kept::Kept;
pub use table::Aggregate;
