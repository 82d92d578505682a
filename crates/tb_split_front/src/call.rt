//! What is asked of a table that is split.
ghost use Rattle.std.specs.Prelude.{◌≡◌, ◌≤◌, ◌&&◌, nat_le};
ghost use Rattle.tb_value.specs.Promise.Refusals.{when};

use std::marker::Model;
use tb_value::PlSmallStr;

/// The most parts, since each of them is a file.
pub const MAX_PARTS: u32 = 65_536;

/// A number of parts, from 1 to `MAX_PARTS`. Seen as a number.
#[derive(Drop)]
pub struct PartCount {
    count: u32,
}

impl Model for PartCount {
    ghost use Rattle.std.specs.Prelude.{ℕ, ◌≤◌};
    ghost use Rattle.tb_split_front.specs.declared.call.TheConstants.{MAX_PARTS};

    ghost Value = { ℕ };

    ghost view = { λ p. p.count };

    ghost invariant = { λ p. (1 ≤ p.count) × (p.count ≤ MAX_PARTS) };
}

impl PartCount {
    /// This number, or None where it isn't from 1 to `MAX_PARTS`.
    pub fn new(count: u32) -> Option<PartCount>
        ensures { result ≡ when (nat_le 1 count && nat_le count MAX_PARTS) count }
    {
        if count < 1 || count > MAX_PARTS {
            return None;
        }
        Some(PartCount { count })
    }

    /// The number.
    pub fn get(&self) -> u32
        ensures given { result ≡ self.now }
        ensures some { 1 ≤ result }
        ensures most { result ≤ MAX_PARTS }
    {
        self.count
    }
}

/// How the table of a text is split.
#[derive(Drop)]
pub struct SplitCall {
    /// The names of the keys: rows with equal keys are in one part.
    pub on: Vec<PlSmallStr>,
    /// How many parts there are.
    pub parts: PartCount,
    /// The name of a column of the numbers of the rows, which stands before the others, if one is asked.
    pub number: Option<PlSmallStr>,
}
