//! Requests to group a table: read from JSON texts, done, and answered.
#![tactic(auto)]

mod grouping;
mod known;
pub mod laws;
mod reading;
mod request;
mod shape;
mod texts;

pub use grouping::{GroupedTable, grouped};
pub use known::{agg_members, group_members};
pub use reading::{group_in, group_request_of};
pub use request::GroupRequest;
pub use texts::{counts_value, text_of_grouped};
