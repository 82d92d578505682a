//! Tests of joins that cross crates, and of parts that two workers do at once. The library itself is empty.
#![tactic(auto)]

#[cfg(test)]
mod calls;
#[cfg(test)]
mod columns;
#[cfg(test)]
mod gathers;
#[cfg(test)]
mod hashing;
#[cfg(test)]
mod kept;
#[cfg(test)]
mod meeting;
#[cfg(test)]
mod program;
#[cfg(test)]
mod text_gathers;
#[cfg(test)]
mod texts;
#[cfg(test)]
mod workers;
