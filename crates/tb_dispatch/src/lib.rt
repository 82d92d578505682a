//! The calls beside `join`: by key columns that are given, by rows that were found before, and in steps.
#![tactic(auto)]

mod coalesce;
mod dispatch;
mod given;
mod left;
mod names;

pub use coalesce::_coalesce_full_join;
pub use dispatch::JoinDispatch;
pub use given::GivenJoin;
pub use left::materialize_left_join_from_series;
pub use names::{_finish_join, _join_suffix_name};
pub use tb_join::private_left_join_multiple_keys;
