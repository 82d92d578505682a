//! Groupings of texts of tables: what `muigratu group` does.
#![tactic(auto)]

mod call;
mod comparing;
mod grouping;
mod keyed;
mod row_order;
mod sorting;
mod words;

pub use call::GroupCall;
pub use grouping::group_text;
pub use words::agg_of_word;
