//! Two ascending lists of keys, merged: which rows match, with a bound on the comparisons.
#![tactic(auto)]

mod ascend;
mod by_portion;
mod fault;
mod merging;
mod pushing;
mod runs;
mod steps;

pub use ascend::Ascend;
pub use fault::MergeFault;
pub use merging::{Merged, merge_inner, merge_left};
pub use steps::Steps;
