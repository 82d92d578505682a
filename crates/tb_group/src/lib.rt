//! Grouped aggregates: what a table is that is grouped by some of its columns, with one value for each group and aggregate,
//! which groupings are refused, and how the rows fall into parts; and the call that groups.
#![tactic(auto)]

mod codes;
mod columns;
mod grouping;
pub mod laws;
mod lookup;
mod once;
mod order;
mod part;
mod parts;
mod request;
mod whole;

pub use grouping::group_by;
pub use parts::Grouped;
pub use request::GroupAgg;
pub use tb_agg::Aggregate as GroupKind;
