//! In which keys absent fields match absent ones, as names say it.
ghost use Rattle.std.specs.Prelude.{◌≡◌, map, IfOk};
ghost use Rattle.tb_frame.specs.Promise.Naming.{is_among};

use std::alloc::Global;
use tb_frame::{Flags, name_set};
use tb_value::{OutOfMemory, PlSmallStr};

/// A flag for each key: whether it is among the names.
///
/// # Errors
///
/// `OutOfMemory` alone, which may come at any time.
pub fn named_flags(
    alloc: Global,
    keys: &[PlSmallStr],
    names: &[PlSmallStr],
) -> Result<Flags, OutOfMemory>
    ensures { IfOk result (λ flags. flags ≡ map (is_among names.now) keys.now) }
{
    let named = name_set(alloc, names)?;
    let mut flags = Vec::with_capacity(alloc, keys.len())?;
    for key in keys {
        flags.push(named.contains(key))?;
    }
    Ok(Flags::from_vec(flags))
}
