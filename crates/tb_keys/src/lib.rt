//! The keys of a join: the columns that their names name, the causes that keys are refused for, and the listing of a
//! request by two nested loops, slow, and as its definition says.
#![tactic(auto)]

mod agreeing;
mod keys;
mod listing;
mod names;
mod request;
mod validation;

pub use keys::check_columns;
pub use listing::{check_size, list_pairs};
pub use names::{check_answer_names, check_lists};
pub use request::{KeyColumns, LentRequest, NamedRequest};
pub use validation::check_sides;
