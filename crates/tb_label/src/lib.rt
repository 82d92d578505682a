//! The texts of values, by which columns are named that are made of values, and whole numbers read from texts.
//!
//! | value | text |
//! |---|---|
//! | Null | `null` |
//! | Boolean | `true`, `false` |
//! | whole number | decimal digits, with `-` in front where it is negative |
//! | String | itself |
#![tactic(auto)]

mod label;
pub mod laws;
mod numerals;

pub use label::{given_separator, is_header_type, truth_text, value_text};
pub use numerals::whole_in;
