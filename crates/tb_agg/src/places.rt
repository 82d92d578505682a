//! Items of a list at places.
ghost use Rattle.std.specs.Prelude.{◌≡◌, ◌<◌, IfOk, length};
ghost use Rattle.std.specs.List.{All};
ghost use Rattle.tb_agg.specs.Kept.{items_at};

use std::alloc::Global;
use tb_value::{IdxSize, OutOfMemory};

pub(crate) fn items_at<T: Copy>(
    alloc: Global,
    items: &[T],
    places: &[IdxSize],
) -> Result<Vec<T>, OutOfMemory>
    requires { All (λ p. p < length items.now) places.now }
    ensures { IfOk result (λ v. (other : _) → v.items ≡ items_at other items.now places.now) }
{
    let mut taken = Vec::with_capacity(alloc, places.len())?;
    for place in places {
        taken.push(items[*place as usize])?;
    }
    Ok(taken)
}
