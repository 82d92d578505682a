//! Columns side by side, and their names.
ghost use Rattle.std.specs.Prelude.{◌≡◌, IfOk, map};
ghost use Rattle.tb_frame.specs.Promise.Table.{names_of, table_of};
ghost use Rattle.tb_join.specs.AnswerColumns.{column_called, side_by_side};

use std::alloc::Global;
use tb_frame::{column_name_set, right_name};
use tb_store::Column;
use tb_value::OutOfMemory;

// The right columns under their names in the answer, beside these left columns.
fn named_right(
    alloc: Global,
    left: &[Column],
    right: Vec<Column>,
    suffix: &str,
) -> Result<Vec<Column>, OutOfMemory>
    ensures { IfOk result (λ v.
        v.items ≡ map (column_called (names_of (table_of left.now)) suffix.now) right.items) }
{
    let taken = column_name_set(alloc, left)?;
    let mut named = Vec::with_capacity(alloc, right.len())?;
    for mut column in right {
        let name = right_name(alloc, &taken, suffix, column.name())?;
        column.rename(name);
        named.push(column)?;
    }
    Ok(named)
}

/// The left columns, and then the right ones, whose names the suffix follows where a left column has them.
pub fn side_by_side(
    alloc: Global,
    left: Vec<Column>,
    right: Vec<Column>,
    suffix: &str,
) -> Result<Vec<Column>, OutOfMemory>
    ensures { IfOk result (λ v. v.items ≡ side_by_side suffix.now left.items right.items) }
{
    let mut named = named_right(alloc, &left, right, suffix)?;
    let mut columns = left;
    columns.append(&mut named)?;
    Ok(columns)
}
