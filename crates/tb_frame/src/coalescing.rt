//! Columns made of two, of which the second stands in where the first has Null.
ghost use Rattle.std.specs.Prelude.{◌≡◌, IfOk, length};
ghost use Rattle.tb_chunk.specs.Promise.Col.{values};
ghost use Rattle.tb_frame.specs.Frame.{coalesced_column};

use std::alloc::Global;
use tb_store::Column;
use tb_value::OutOfMemory;

/// The values of the first column, and those of the second where they are Null, in one chunk. The name is that of the
/// first. Both have one type and one length.
pub fn coalesce_columns(
    alloc: Global,
    first: &Column,
    second: &Column,
) -> Result<Column, OutOfMemory>
    requires one_type { first.now.kind ≡ second.now.kind }
    requires one_length { length (values first.now) ≡ length (values second.now) }
    ensures { IfOk result (λ c. c ≡ coalesced_column first.now second.now) }
{
    first.coalesce(alloc, second)
}
