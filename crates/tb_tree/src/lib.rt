//! JSON values of 16 bytes, read from a text.
#![tactic(auto)]

mod items;
mod number;
mod read;
mod value;

pub use items::{Item, Items};
pub use read::Fault;
pub use value::{Map, Value};
