//! The type that two types have in common, and columns whose values are cast to it.
//!
//! | types, in either order | common type |
//! |---|---|
//! | T and T; Null and T | T |
//! | two signed or two unsigned types of whole numbers | the wider |
//! | Int128 and an unsigned type | Int128 |
//! | UInt64 and another signed type | none |
//! | another unsigned type and another signed one | the narrowest signed type that holds both |
//! | Boolean and whole numbers | that type of whole numbers |
//! | String and Boolean or whole numbers | String |
//! | any others | none |
#![tactic(auto)]

mod casting;
mod class;
pub mod laws;
mod types;

pub use casting::stack;
pub use class::{Class, class_of};
pub use types::supertype;
