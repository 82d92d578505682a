//! A pair of rows that a step adds to a join or takes from it.
ghost use Rattle.std.specs.Prelude.{◌<◌, ◌^◌};

/// A pair of rows that a step adds to a join or takes from it: the number of the step, whether it adds, and the ids of both rows.
#[derive(Drop)]
pub(crate) struct Change {
    pub step: u64,
    pub comes: bool,
    pub left: u32,
    pub right: u32,
    ghost step_fits: { step < 2 ^ 64 },
    ghost left_fits: { left < 2 ^ 32 },
    ghost right_fits: { right < 2 ^ 32 },
}
