//! Texts of tables in, the text of an answer out: what the commands for people do.
#![tactic(auto)]

mod asking;
mod decimals;
mod fault;
mod keys;
mod long;
mod marking;
mod nulls;
mod numbers;
mod options;
mod pivoting;
mod reading;
mod watch;
mod writing;

pub use asking::{dummies_text, join_texts, pivot_text, unpivot_text};
pub use decimals::check_undecimal;
pub use fault::{Comparison, FrontFault, NodeTitle, Place, PlanPart, StepCause};
pub use keys::{check_keys, type_read};
pub use nulls::named_flags;
pub use numbers::next_number;
pub use options::{TextForm, TextOptions};
pub use reading::{TwoTables, check_types, read_at, read_table, read_tables};
pub use watch::Watch;
pub use writing::{refused, text_of_table, written};
