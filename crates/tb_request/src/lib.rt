//! Requests read from JSON texts.
#![tactic(auto)]

mod arguments;
mod flags;
mod known;
pub mod laws;
mod members;
mod one_table;
mod reading;
mod reasons;
mod request;
mod runs;
mod shape;
mod tables;
mod values;

pub use arguments::{
    args_of, coalesce_named, how_named, order_named, side_named, slice_in, validation_named,
};
pub use flags::flag_holds;
pub use known::{
    Form, Known, Word, args_members, column_members, dummies_members, exec_members, is_among,
    join_members, pivot_members, standing_members, table_members, unpivot_members,
};
pub use members::{
    has_only, into_array, into_member, name_at, text_at, texts_at, texts_if_at, truth_at, truths_of,
};
pub use one_table::{agg_named, agg_of};
pub use reading::{
    dummies_in, dummies_request_of, join_in, join_request_of, json_value, pivot_in,
    pivot_request_of, unpivot_in, unpivot_request_of, value_in, value_of,
};
pub use reasons::bad_request_text;
pub use request::{
    DummiesRequest, JoinRequest, PivotRequest, Reason, RequestFault, UnpivotRequest,
};
pub use runs::{MAX_RUN_VALUES, times_of};
pub use shape::{
    ExecNumbers, Format, WrittenColumn, WrittenValues, count_of, exec_of, flag_named, flag_of,
    format_of, table_at, table_in,
};
pub use tables::{RequestTables, request_tables, single_table, two_tables};
