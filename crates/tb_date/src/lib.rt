//! Days of the calendar, read from texts and written to them.
#![tactic(auto)]

mod dates;
mod numbers;

pub use dates::{date_in, date_text, dated};
pub use numbers::{is_date, number_text};
