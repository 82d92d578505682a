//! The table of the rows that pass.
ghost use Rattle.std.specs.Prelude.{◌≡◌, IfNone, IfOk, IfSome, Some, length, map};
ghost use Rattle.tb_value.specs.declared.sorted.IsSorted.TheVariants.{Ascending};
ghost use Rattle.tb_chunk.specs.Lent.{lent_columns};
ghost use Rattle.tb_chunk.specs.Promise.Col.{values};
ghost use Rattle.tb_frame.specs.Promise.Table.{height, plain_column, table_of};
ghost use Rattle.tb_gather.specs.Gathered.{gathered_rows};
ghost use Rattle.tb_filter.specs.Promise.Filtered.{rows_kept, with_rows};
ghost use Rattle.tb_filter.specs.Seen.{check_of};

use crate::asked::Test;
use crate::kept::kept_rows;
use std::alloc::Global;
use std::thread::Threads;
use tb_frame::DataFrame;
use tb_gather::{LeftRow, gather_rows, made_table};
use tb_store::{Column, Series};
use tb_value::{IsSorted, OutOfMemory};

fn lend(alloc: Global, columns: &[Column]) -> Result<Vec<&Column>, OutOfMemory>
    ensures { IfOk result (λ v. lent_columns v.items ≡ columns.now) }
{
    let mut lent = Vec::with_capacity(alloc, columns.len())?;
    for column in columns {
        lent.push(column)?;
    }
    Ok(lent)
}

/// The rows of the table whose field in a column of its height passes, in their order, with the flags of the table's
/// columns. None where all rows pass: it then takes no memory for the table's fields.
pub fn filter_rows(
    rt: &(impl Threads + Sync),
    alloc: Global,
    table: &DataFrame,
    column: &Series,
    test: &Test,
) -> Result<Option<DataFrame>, OutOfMemory>
    requires { length (values column.now) ≡ height (table_of table.now) }
    ensures rows { IfOk result (λ o.
        IfSome o (λ t.
        table_of t
        ≡ with_rows (rows_kept (check_of test.now) (plain_column column.now))
        (table_of table.now))) }
    ensures flags { IfOk result (λ o. IfSome o (λ t. t
        ≡ map (gathered_rows (map (λ i. Some i) (rows_kept (check_of test.now) (plain_column column.now))) Ascending) table.now)) }
    ensures all { IfOk result (λ o.
        IfNone o
        (with_rows (rows_kept (check_of test.now) (plain_column column.now))
        (table_of table.now)
        ≡ table_of table.now)) }
{
    let columns = table.get_columns();
    let rows = kept_rows(alloc, column, test)?;
    if rows.len() == table.height() {
        return Ok(None);
    }
    let lent = lend(alloc, columns)?;
    let kept = gather_rows::<LeftRow>(rt, alloc, &lent, &rows, IsSorted::Ascending)?;
    Ok(Some(made_table(alloc, kept)?))
}
