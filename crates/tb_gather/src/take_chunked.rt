//! What rows are gathered from, by ids.
ghost use Rattle.std.specs.Prelude.{◌≡◌, ◌≤◌, All, IfOk, IsSome, length, map};
ghost use Rattle.tb_gather.specs.Ids.{Id, StandInOrder};
ghost use Rattle.tb_gather.specs.Gathered.{NameRows, gathered_column, opt_gathered_column};

use std::alloc::Global;
use tb_value::{ChunkId, IsSorted, MAX_ROWS, OutOfMemory};

/// A column, or columns side by side, whose rows are gathered by ids. An id names a chunk and a row in it, the same in
/// each column.
pub trait TakeChunked<const B: u64>: Sized {
    ghost use Rattle.std.specs.Prelude.{List};
    ghost use Rattle.tb_chunk.specs.Promise.Col.{Col};

    /// The columns, in their order.
    ghost columns: { Self → List Col };

    /// The rows that the ids name, in the order and as often as they are named, in one chunk. `sorted` says how the
    /// ids run, by chunk and then by row, and with the flag of a column makes the flag of what is gathered from it.
    ///
    /// No long text is copied. The answer has the buffers of the column's only chunk; where a column has more chunks than there
    /// are ids, the buffers that the rows' texts lie in, in the order of first use; else those of all chunks, one chunk after
    /// the other.
    fn take_chunked_unchecked(
        &self,
        alloc: Global,
        by: &[ChunkId<B>],
        sorted: IsSorted,
    ) -> Result<Self, OutOfMemory>
        requires present { All (λ (id : Id). IsSome id) by.now }
        requires named { All (NameRows by.now) (columns self.now) }
        requires in_order { StandInOrder sorted by.now }
        requires few { length by.now ≤ MAX_ROWS }
        ensures { IfOk result (λ r. columns r ≡ map (gathered_column by.now sorted) (columns self.now)) };

    /// As `take_chunked_unchecked`, where a null id gives Null, with the flag Not.
    fn take_opt_chunked_unchecked(
        &self,
        alloc: Global,
        by: &[ChunkId<B>],
    ) -> Result<Self, OutOfMemory>
        requires named { All (NameRows by.now) (columns self.now) }
        requires few { length by.now ≤ MAX_ROWS }
        ensures { IfOk result (λ r. columns r ≡ map (opt_gathered_column by.now) (columns self.now)) };
}
