//! Numbers of steps and nodes.
ghost use Rattle.std.specs.Prelude.{◌≡◌, ◌+◌, IfOk};

use tb_value::OutOfMemory;

/// The number behind this one. At the end of a `usize` there is none: so much is more than memory can hold.
///
/// # Errors
///
/// `OutOfMemory` at the end of a `usize`.
pub fn next_number(number: usize) -> Result<usize, OutOfMemory>
    ensures { IfOk result (λ n. n ≡ number + 1) }
{
    match number.checked_add(1) {
        Some(next) => Ok(next),
        None => Err(OutOfMemory),
    }
}
