//! Texts of tables in parts by their keys: what `muigratu split` does.
#![tactic(auto)]

mod call;
mod numbering;
mod splitting;

pub use call::{MAX_PARTS, PartCount, SplitCall};
pub use splitting::split_text;
