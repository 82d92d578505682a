//! Requests in JSON, answered in memory on one thread: the bytes of a request in, a text out, and a status that says
//! what the text is.
#![tactic(auto)]

mod answering;
mod outcomes;
mod status;

pub use answering::{answer_dummies, answer_join, answer_pivot, answer_unpivot};
pub use outcomes::Answer;
pub use status::Status;
