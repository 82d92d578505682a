//! How a list is cut in portions.
ghost use Rattle.std.specs.Prelude.{◌≡◌, ◌+◌, ◌/◌, ◌≤◌, ◌<◌, map, IfOk};
ghost use Rattle.std.specs.List.{range_with_len};
ghost use Rattle.tb_pool.specs.Portions.{portion_of};

use std::alloc::Global;
use tb_value::OutOfMemory;

/// Cuts `len` items in `n` portions, each an offset and a length. Each has `len / n` items, and the last takes the
/// rest too.
pub fn portions(alloc: Global, len: usize, n: u32) -> Result<Vec<(usize, usize)>, OutOfMemory>
    requires { 1 ≤ n }
    ensures { IfOk result (λ v. v.items ≡ map (portion_of len n) (range_with_len 0 n)) }
{
    let count = n as usize;
    let each = len / count;
    let mut all = Vec::new(alloc);
    for i in 0..count {
        all.push(portion(len, count, each, i))?;
    }
    Ok(all)
}

fn portion(len: usize, count: usize, each: usize, i: usize) -> (usize, usize)
    requires each { each ≡ len / count }
    requires index { i < count }
    ensures { result ≡ portion_of len count i }
{
    let offset = i * each;
    if i + 1 == count {
        (offset, len - offset)
    } else {
        (offset, each)
    }
}
