//! Rows that have the same values in some columns, in groups, and lists put in an order.
#![tactic(auto)]

mod both;
mod by_code;
mod coded;
mod fields;
mod grouping;
mod groups;
pub mod laws;
mod names;
mod order;
mod places;
mod row_values;

pub use both::group_both;
pub use grouping::{group_listed, group_rows};
pub use groups::Groups;
pub use names::RowNames;
pub use order::order_of_values;
