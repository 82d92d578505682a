//! Tests of the crates below the joins. The library itself is empty.
#![tactic(auto)]

#[cfg(test)]
mod claims;
#[cfg(test)]
mod columns;
#[cfg(test)]
mod pivoting;
#[cfg(test)]
mod reshaping;
#[cfg(test)]
mod row_keys;
#[cfg(test)]
mod tables;
#[cfg(test)]
mod texts;
#[cfg(test)]
mod views;
#[cfg(test)]
mod workers;
