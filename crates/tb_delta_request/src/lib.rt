//! Requests to keep a join while rows are put in and taken out: read from JSON texts, done, and answered.
#![tactic(auto)]

mod keeping;
mod known;
pub mod laws;
mod reading;
mod request;
mod rows;
mod shape;
mod texts;

pub use keeping::{KeptFault, KeptJoin, kept};
pub use known::{delta_members, insert_members, remove_members};
pub use reading::{delta_in, delta_request_of};
pub use request::DeltaRequest;
pub use shape::side_at;
pub use texts::{text_of_fault, text_of_kept};
