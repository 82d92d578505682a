//! Plans as trees of nodes: joins and filters of tables that are named, and filters that are put before joins.
#![tactic(auto)]

pub mod laws;
mod lists;
mod nodes;
mod pushing;
mod tables;

pub use lists::Names;
pub use nodes::Node;
pub use pushing::push_filters;
pub use tables::{NamedTable, TableMap};
