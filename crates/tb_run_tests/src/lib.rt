//! Tests of `run` over ends of each kind. The library itself is empty.
#![tactic(auto)]

#[cfg(test)]
mod ends;
#[cfg(test)]
mod rows;
