//! Parts of columns.
ghost use Rattle.std.specs.Prelude.{◌≡◌, ◌≤◌, ◌+◌, ◌-◌};
ghost use Rattle.tb_cell.specs.Window.{clamped_place, part_from, part_to};

use std::alloc::Global;
use tb_value::OutOfMemory;

// A place, clamped into a list of `len`.
fn clamped(place: i128, len: usize) -> usize
    ensures { result ≡ clamped_place len place }
{
    place.clamp(0, len as i128) as usize
}

/// Where the part of `array_len` values starts that an offset and a length name, and how many values
/// it has. A negative offset counts from the end. Places outside the values are left out.
pub fn slice_offsets(offset: i64, len: usize, array_len: usize) -> (usize, usize)
    ensures exact { result
        ≡ (part_from array_len offset, part_to array_len offset len - part_from array_len offset) }
    ensures within { result.0 + result.1 ≤ array_len }
{
    let start = if offset < 0 {
        offset as i128 + array_len as i128
    } else {
        offset as i128
    };
    let stop = start + len as i128;
    let from = clamped(start, array_len);
    let to = clamped(stop, array_len);
    (from, to - from)
}
