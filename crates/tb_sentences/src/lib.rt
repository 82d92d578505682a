//! Why there is no answer, in sentences for people and as a status.
#![tactic(auto)]

mod failure;
mod front_sentence;
mod placed;
mod sentences;

pub use failure::{Failure, FrontFailure};
pub use front_sentence::TitleWords;
pub use placed::{front_failure, text_or_failure};
