//! Rows of a table, gathered by ids.
ghost use Rattle.std.specs.Prelude.{◌≡◌, ◌≤◌, All, IfOk, length, map};
ghost use Rattle.tb_frame.specs.Promise.Table.{table_of, IsTable};
ghost use Rattle.tb_gather.specs.Ids.{AreAllInOrder};
ghost use Rattle.tb_gather.specs.Gathered.{NameRows, gathered_column};

use crate::keep::Keep;
use crate::series::gather_column;
use crate::take_chunked::TakeChunked;
use std::alloc::Global;
use tb_frame::DataFrame;
use tb_store::Column;
use tb_value::{ChunkId, IsSorted, MAX_ROWS, OutOfMemory, only_memory};

// The rows of each column that the ids name, with the flag that the column's and `sorted` make.
fn gather_columns<const B: u64>(
    alloc: Global,
    columns: &[Column],
    by: &[ChunkId<B>],
    sorted: IsSorted,
) -> Result<Vec<Column>, OutOfMemory>
    requires named { All (NameRows by.now) columns.now }
    requires in_order { AreAllInOrder sorted by.now }
    requires few { length by.now ≤ MAX_ROWS }
    ensures { IfOk result (λ v. v.items ≡ map (gathered_column by.now sorted) columns.now) }
{
    let mut gathered = Vec::with_capacity(alloc, columns.len())?;
    for column in columns {
        gathered.push(gather_column(alloc, column, by, sorted, Keep::Used)?)?;
    }
    Ok(gathered)
}

/// The table of columns that make one.
pub fn made_table(alloc: Global, columns: Vec<Column>) -> Result<DataFrame, OutOfMemory>
    requires { IsTable (table_of columns.items) }
    ensures { IfOk result (λ t. t ≡ columns.items) }
{
    only_memory(DataFrame::new(alloc, columns))
}

impl<const B: u64> TakeChunked<B> for DataFrame {
    ghost columns = { λ t. t };

    fn take_chunked_unchecked(
        &self,
        alloc: Global,
        by: &[ChunkId<B>],
        sorted: IsSorted,
    ) -> Result<DataFrame, OutOfMemory> {
        let columns = gather_columns(alloc, self.get_columns(), by, sorted)?;
        made_table(alloc, columns)
    }

    fn take_opt_chunked_unchecked(
        &self,
        alloc: Global,
        by: &[ChunkId<B>],
    ) -> Result<DataFrame, OutOfMemory> {
        let columns = gather_columns(alloc, self.get_columns(), by, IsSorted::Not)?;
        made_table(alloc, columns)
    }
}
