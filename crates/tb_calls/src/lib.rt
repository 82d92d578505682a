//! The calls that programs make of tables: what is asked but for the tables, and what is answered.
#![tactic(auto)]

mod arguments;
mod joins;
mod reshaping;

pub use arguments::{DummiesCall, JoinCall, PivotCall};
pub use joins::{joined, joined_traced};
pub use reshaping::{made_long, made_wide, names_given, text_given, with_dummies};
pub use tb_join::JoinTrace;
pub use tb_unpivot::UnpivotArgsIR;
