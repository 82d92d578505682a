//! The right columns of an answer, under their names there.
ghost use Rattle.std.specs.Prelude.{◌≡◌, ◌≤◌, All, IfOk, List, length};
ghost use Rattle.tb_value.specs.Promise.Names.{Name};
ghost use Rattle.tb_chunk.specs.Promise.Col.{Col, values};
ghost use Rattle.tb_chunk.specs.Rows.{IsRowOf};
ghost use Rattle.tb_frame.specs.Promise.Naming.{is_among};
ghost use Rattle.tb_frame.specs.NameSets.{has_name};
ghost use Rattle.tb_frame.specs.RightColumns.{right_column};
ghost use Rattle.tb_frame.specs.Sides.{of_kind};
ghost use Rattle.tb_frame.specs.Promise.Table.{names_of, table_of};
ghost use Rattle.tb_nested.specs.Beside.{columns_beside};

use std::alloc::Global;
use tb_frame::{
    JoinArgs, JoinType, NameSet, column_name_set, gone_right, name_set, right_name, right_side,
    suffix_of,
};
use tb_store::Column;
use tb_value::{MAX_ROWS, NullableIdxSize, OutOfMemory, PlSmallStr};

// The right column under its name in the answer.
fn named_column(
    alloc: Global,
    taken: &NameSet<'_>,
    suffix: &str,
    column: &Column,
    rows: &[NullableIdxSize],
) -> Result<Column, OutOfMemory>
    requires rows { All (IsRowOf (length (values column.now))) rows.now }
    requires few { length rows.now ≤ MAX_ROWS }
    ensures { IfOk result (λ c.
        (ns : List Name) → ((n : Name) → has_name taken.now n ≡ is_among ns n)
        → c ≡ right_column ns suffix.now rows.now column.now) }
{
    let name = right_name(alloc, taken, suffix, column.name())?;
    let mut column = column.take_opt(alloc, rows)?;
    column.rename(name);
    Ok(column)
}

// The right columns of an answer beside these left ones: with these rows, under their names in the answer, and
// without the keys that are coalesced. A Semi or Anti join has none. The kind that the arguments name is not read.
pub(crate) fn columns_beside(
    alloc: Global,
    how: JoinType,
    args: &JoinArgs,
    left: &[Column],
    right: &[Column],
    right_on: &[PlSmallStr],
    rows: &[NullableIdxSize],
) -> Result<Vec<Column>, OutOfMemory>
    requires rows { All (λ (c : Col). All (IsRowOf (length (values c))) rows.now) right.now }
    requires few { length rows.now ≤ MAX_ROWS }
    ensures { IfOk result (λ v.
        v.items
        ≡ columns_beside (of_kind how args.now) right_on.now rows.now
        (names_of (table_of left.now)) right.now) }
{
    let taken = column_name_set(alloc, left)?;
    let gone = name_set(alloc, gone_right(how, args, right_on))?;
    let suffix = suffix_of(args);
    let side = right_side(how, right);
    let mut columns = Vec::with_capacity(alloc, side.len())?;
    for column in side {
        if !gone.contains(column.name()) {
            columns.push(named_column(alloc, &taken, suffix, column, rows)?)?;
        }
    }
    Ok(columns)
}
