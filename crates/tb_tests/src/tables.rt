//! Tables asked for columns and rows, put together and compared.

use crate::texts::dummies_asked;
use std::alloc::Global;
use std::slice;
use std::test::Fail;
use tb_frame::DataFrame;
use tb_store::{NullableIdxSize, PlSmallStr};

const KEYED: &str =
    r#"{"table":{"columns":[{"name":"k","type":"i64","chunks":[[1,2,3]]},{"name":"a","type":"i64","chunks":[[10,20,30]]}]}}"#;

// Whether the first columns of a table, and behind them all but those of these names, are the table.
fn are_together(
    alloc: Global,
    table: &DataFrame,
    names: &[PlSmallStr],
    first: &DataFrame,
) -> Result<bool, Fail> {
    let others = table.drop_many(alloc, names)?;
    let again = first.hstack(alloc, others.get_columns())?;
    Ok(again.equals_missing(table))
}

// The same, where the first columns are those of these names.
fn is_put_together_again(
    alloc: Global,
    table: &DataFrame,
    names: &[PlSmallStr],
) -> Result<bool, Fail> {
    let first = table.select(alloc, names)?;
    are_together(alloc, table, names, &first)
}

// Whether a table is put together of its first column and the other.
fn parts(alloc: Global, table: &DataFrame) -> Result<bool, Fail> {
    let key = table.column(alloc, "k")?.name();
    is_put_together_again(alloc, table, slice::from_ref(key))
}

#[test]
fn columns_of_a_table(rt: HostRuntime) -> Result<(), Fail> {
    let request = dummies_asked(rt.alloc(), KEYED)?;
    assert!(rt; parts(rt.alloc(), &request.table)?);
    Ok(())
}

// The last two rows of three, the last one first, by numbers that may be absent.
fn last_rows(alloc: Global, table: &DataFrame) -> Result<DataFrame, Fail> {
    if table.height() != 3 {
        return Err(Fail::from("another height"));
    }
    let rows = [NullableIdxSize::some(2), NullableIdxSize::some(1)];
    Ok(table.take_opt(alloc, &rows)?)
}

// Whether the chunks of such rows are cut alike, and they are another table.
fn are_another(alloc: Global, table: &DataFrame) -> Result<bool, Fail> {
    let taken = last_rows(alloc, table)?;
    Ok(taken.height() == 2 && !taken.should_rechunk() && !taken.equals_missing(table))
}

// How high a part of a table is that is one row long.
fn part_height(alloc: Global, table: &DataFrame) -> Result<usize, Fail> {
    Ok(table.slice(alloc, -2, 1)?.height())
}

#[test]
fn rows_of_a_table(rt: HostRuntime) -> Result<(), Fail> {
    let request = dummies_asked(rt.alloc(), KEYED)?;
    assert!(rt; part_height(rt.alloc(), &request.table)? == 1);
    assert!(rt; are_another(rt.alloc(), &request.table)?);
    Ok(())
}
