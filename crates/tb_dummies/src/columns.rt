//! The columns that are made of a table's columns.
ghost use Rattle.std.specs.Prelude.{◌≡◌, ◌==◌, ◌&&◌, ◌<◌, ◌≤◌, ◌∷◌, [], ◌++◌, IfOk, if◌then◌else◌, length, map};
ghost use Rattle.std.specs.List.{flat_map};
ghost use Rattle.tb_value.specs.Promise.Kind as kind;
ghost use Rattle.tb_value.specs.See.{lent_value, IsText};
ghost use Rattle.tb_value.specs.SeeKind.{kind_of};
ghost use Rattle.tb_chunk.specs.Promise.Col.{values};
ghost use Rattle.tb_frame.specs.Promise.Table.{plain_column, table_of};
ghost use Rattle.tb_label.specs.Promise.Label.{value_text};
ghost use Rattle.tb_rows.specs.Grouped.{AreGroups};
ghost use Rattle.tb_rows.specs.Promise.Rows.{same_rows, row_value};
ghost use Rattle.tb_dummies.specs.Promise.Dummies.{dummies_of, dummy, in_place_of, mark, value_rows};
ghost use Rattle.tb_dummies.specs.Lent.{is_in, mark_in};

use crate::replaced::Replaced;
use std::alloc::Global;
use tb_label::value_text;
use tb_rows::{Groups, group_rows};
use tb_store::{Cells, Chunks, Column, IsSorted, Series};
use tb_value::{DataType, IdxSize, MAX_ROWS, OutOfMemory, PlSmallStr, ValueRef};

// The rows of a column in groups of one value. Columns of several chunks are joined first, since a row of theirs is
// found in as many steps.
fn groups_of(alloc: Global, column: &Series) -> Result<Groups, OutOfMemory>
    ensures { IfOk result
        (AreGroups (same_rows (values column.now ∷ [])) (length (values column.now))) }
{
    if column.n_chunks() == 1 {
        return group_rows(alloc, &[column], column.len());
    }
    let whole = column.rechunk(alloc)?;
    group_rows(alloc, &[&whole], whole.len())
}

// For the group of each row 1 where it is this one, else 0.
fn marks(alloc: Global, numbers: &[IdxSize], group: usize) -> Result<Vec<u8>, OutOfMemory>
    ensures { IfOk result (λ v. v.items ≡ map (λ n. if n == group then 1 else 0) numbers.now) }
{
    let marks = numbers
        .iter()
        .map(|number| u8::from(*number as usize == group))
        .collect(alloc)?;
    Ok(marks)
}

// The name of a column, the separator and the text of a value.
fn dummy_name(
    alloc: Global,
    name: &PlSmallStr,
    separator: &str,
    value: ValueRef<'_>,
) -> Result<PlSmallStr, OutOfMemory>
    requires { IsText value }
    ensures { IfOk result (λ n.
        n ≡ name.now ++ separator.now ++ value_text (lent_value value.entry)) }
{
    let text = value_text(alloc, value)?;
    name.followed_by(alloc, separator)?
        .followed_by(alloc, text.as_str())
}

fn mark_type() -> DataType
    ensures { kind_of result ≡ kind.uint8 }
{
    DataType::UInt8
}

// The column of this name and the marks of a group.
fn mark_column(
    alloc: Global,
    name: PlSmallStr,
    numbers: &[IdxSize],
    group: usize,
) -> Result<Column, OutOfMemory>
    requires { length numbers.now ≤ MAX_ROWS }
    ensures { IfOk result (λ c.
        plain_column c
        ≡ record { name = name; kind = kind.uint8; values = map (mark_in group) numbers.now }) }
{
    let marks = marks(alloc, numbers, group)?;
    let mut chunks = Vec::with_capacity(alloc, 1)?;
    chunks.push(Cells::from_vec(alloc, marks))?;
    let series = Series::from_parts(name, mark_type(), Chunks::UInt8Type(chunks), IsSorted::Not);
    Ok(series.into_column())
}

// The column for the value of a row, which stands in the rows of its group.
fn dummy(
    alloc: Global,
    column: &Series,
    separator: &str,
    row: usize,
    numbers: &[IdxSize],
    group: usize,
) -> Result<Column, OutOfMemory>
    requires row { row < length (values column.now) }
    requires few { length numbers.now ≤ MAX_ROWS }
    requires marked { map (mark_in group) numbers.now
        ≡ map (mark (row_value (values column.now) row)) (values column.now) }
    ensures { IfOk result (λ c.
        plain_column c
        ≡ dummy separator.now (plain_column column.now) (row_value (values column.now) row)) }
{
    let name = dummy_name(alloc, column.name(), separator, column.get(row))?;
    mark_column(alloc, name, numbers, group)
}

fn is_left_out(row: IdxSize, drop_first: bool) -> bool
    ensures { result ≡ (drop_first && row == 0) }
{
    drop_first && row == 0
}

// The columns for the values of a column, in the order in which the values stand in it.
fn dummies_by_row(
    alloc: Global,
    column: &Series,
    separator: &str,
    drop_first: bool,
) -> Result<Vec<Column>, OutOfMemory>
    ensures { IfOk result (λ v. table_of v.items
        ≡ map (λ i. dummy separator.now (plain_column column.now) (row_value (values column.now) i)) (value_rows drop_first (values column.now))) }
{
    let groups = groups_of(alloc, column)?;
    let firsts = groups.firsts();
    let numbers = groups.numbers();
    let _len = column.len();
    let mut made = Vec::new(alloc);
    for (group, row) in firsts.iter().enumerate() {
        if !is_left_out(*row, drop_first) {
            made.push(dummy(alloc, column, separator, *row as usize, numbers, group)?)?;
        }
    }
    Ok(made)
}

// The columns for the values of a column, by their names.
fn dummies_of(
    alloc: Global,
    column: &Series,
    separator: &str,
    drop_first: bool,
) -> Result<Vec<Column>, OutOfMemory>
    ensures { IfOk result (λ v.
        table_of v.items ≡ dummies_of separator.now drop_first (plain_column column.now)) }
{
    let mut made = dummies_by_row(alloc, column, separator, drop_first)?;
    made.sort_by(|a, b| a.name().cmp(b.name()))?;
    Ok(made)
}

fn one_copy(alloc: Global, column: &Column) -> Result<Vec<Column>, OutOfMemory>
    ensures { IfOk result (λ v. v.items ≡ column.now ∷ []) }
{
    let mut copies = Vec::with_capacity(alloc, 1)?;
    copies.push(column.copy(alloc)?)?;
    Ok(copies)
}

// What stands in the place of a column.
fn in_place_of(
    alloc: Global,
    column: &Column,
    replaced: &Replaced<'_>,
    separator: &str,
    drop_first: bool,
) -> Result<Vec<Column>, OutOfMemory>
    ensures { IfOk result (λ v.
        table_of v.items
        ≡ in_place_of (is_in replaced.now.names) separator.now drop_first
        (plain_column column.now)) }
{
    if replaced.contains(column.name()) {
        dummies_of(
            alloc,
            column.as_materialized_series(),
            separator,
            drop_first,
        )
    } else {
        one_copy(alloc, column)
    }
}

/// The columns, and in the place of each that is replaced those for its values.
pub(crate) fn columns_in_place(
    alloc: Global,
    columns: &[Column],
    replaced: &Replaced<'_>,
    separator: &str,
    drop_first: bool,
) -> Result<Vec<Column>, OutOfMemory>
    ensures { IfOk result (λ v.
        table_of v.items
        ≡ flat_map (in_place_of (is_in replaced.now.names) separator.now drop_first)
        (table_of columns.now)) }
{
    let mut all = Vec::new(alloc);
    for column in columns {
        let mut here = in_place_of(alloc, column, replaced, separator, drop_first)?;
        all.append(&mut here)?;
    }
    Ok(all)
}
