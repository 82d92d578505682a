//! The commands of `muigratu` and their words, and what single words mean.
#![tactic(auto)]

mod commands;
mod fault;
mod names;
mod numbers;
mod visible;

pub use commands::program;
pub use fault::{Choice, WordFault};
pub use names::{Part, name_in, names_given, names_of, needed, on_words, stands_alone, text_given};
pub use numbers::{separator_of, slice_of, threads_of, width_of};
pub use visible::{OneLine, shown};
