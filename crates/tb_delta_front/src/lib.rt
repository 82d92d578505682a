//! Joins of texts of tables that are kept while rows come and go: what `muigratu delta` does.
#![tactic(auto)]

mod change;
mod changes;
mod deltas;
mod lines;
mod side_columns;
mod step_reading;

pub use deltas::{DeltaCall, delta_table_text, delta_text};
