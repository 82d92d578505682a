//! The calls beside the join.
ghost use Rattle.std.specs.Prelude.{◌≡◌, ◌≤◌, ◌∷◌, [], All, IfOk, IsSome, IsTrue, codes, length};
ghost use Rattle.tb_value.specs.declared.sorted.IsSorted.TheVariants.{Ascending};
ghost use Rattle.tb_chunk.specs.Promise.Col.{values};
ghost use Rattle.tb_frame.specs.Promise.Table.{height, table_of};
ghost use Rattle.tb_gather.specs.Gathered.{NameRows};
ghost use Rattle.tb_gather.specs.Ids.{Id, StandInOrder};
ghost use Rattle.tb_dispatch.specs.Given.{AreKeys, StandBeside};
ghost use Rattle.tb_join_tests.specs.Tables.{HasBothKeys};

use crate::columns::{column, table_with, three_numbers};
use crate::gathers::rising_ids;
use crate::texts::{check_text, join_asked};
use std::alloc::Global;
use std::process::Abort;
use std::slice;
use std::test::Fail;
use std::thread::Threads;
use tb_dispatch::{
    _coalesce_full_join, _finish_join, GivenJoin, JoinDispatch, materialize_left_join_from_series,
};
use tb_frame::{DataFrame, JoinArgs, JoinType};
use tb_pool::Exec;
use tb_store::Series;
use tb_value::equality::same_types;
use tb_value::{MAX_ROWS, OutOfMemory, PlSmallStr, PolarsResult, StandardChunkId};

// The table of a column, and the column.
fn with_table(alloc: Global, column: Series) -> Result<(DataFrame, Series), Fail>
    ensures { IfOk result (λ s. s.0 ≡ s.1 ∷ []) }
{
    let table = table_with(alloc, column.copy(alloc)?.into_column())?;
    Ok((table, column))
}

// The key of a table.
fn one_key(alloc: Global, table: &DataFrame) -> Result<Vec<Series>, Fail> {
    let key = table.column(alloc, "k")?.as_materialized_series();
    Ok(vec![in alloc; key.copy(alloc)?]?)
}

// Two sides by their keys alone: in two chunks, with a Null, and with one that matches twice.
const SIDES: &str =
    r#"{"left":{"columns":[{"name":"k","type":"i64","chunks":[[1,null],[2]]}]},"right":{"columns":[{"name":"k","type":"i64","chunks":[[1],[1]]}]},"left_on":["k"],"right_on":["k"],"args":{"how":"left"}}"#;

// Whether the keys are of one type that has keys.
#[tactic(auto, using(crate::proofs::Sides::are_keys))]
fn are_keys(left: &Series, right: &Series) -> bool
    ensures { IsTrue result → AreKeys left.now right.now }
{
    left.dtype().is_key() && same_types(left.dtype(), right.dtype())
}

// Whether such keys are as long as their tables are high.
#[tactic(auto, using(crate::proofs::Sides::stand_beside))]
fn stand_beside(left: &DataFrame, right: &DataFrame, left_key: &Series, right_key: &Series) -> bool
    requires { AreKeys left_key.now right_key.now }
    ensures { IsTrue result → StandBeside left.now right.now left_key.now right_key.now }
{
    left_key.len() == left.height() && right_key.len() == right.height()
}

// The two sides of a Left join, of which the right one has nothing but its key.
fn check_halves(
    rt: &(impl Threads + Sync + Abort),
    alloc: Global,
    left: DataFrame,
    right: &DataFrame,
    left_key: &Series,
    right_key: &Series,
    exec: &Exec,
) -> Result<(), Fail>
    requires { StandBeside left right.now left_key.now right_key.now }
{
    let args = JoinArgs::new(JoinType::Left);
    let (rows, others) = materialize_left_join_from_series(
        rt, alloc, left, right, left_key, right_key, &args, None, exec,
    )?;
    assert!(rt; others.width() == 0);
    let line = r#"{"columns":[{"name":"k","type":"i64","values":[1,1,null,2]}],"height":4}"#;
    check_text(rt, alloc, rows, line)
}

// The left rows that have a match.
fn check_met(
    rt: &(impl Threads + Sync + Abort),
    alloc: Global,
    left: &DataFrame,
    left_key: &Series,
    right_key: &Series,
    exec: &Exec,
) -> Result<(), Fail>
    requires keys { AreKeys left_key.now right_key.now }
    requires rows { length (values left_key.now) ≡ height (table_of left.now) }
{
    let met = left._semi_anti_join_from_series(
        rt, alloc, left_key, right_key, None, false, false, exec,
    )?;
    let line = r#"{"columns":[{"name":"k","type":"i64","values":[1]}],"height":1}"#;
    check_text(rt, alloc, met, line)
}

// How many rows a Full join has, whose order is free.
fn full_rows(
    rt: &(impl Threads + Sync),
    alloc: Global,
    left: &DataFrame,
    right: &DataFrame,
    left_key: &Series,
    right_key: &Series,
    exec: &Exec,
) -> Result<usize, Fail>
    requires { StandBeside left.now right.now left_key.now right_key.now }
{
    let args = JoinArgs::new(JoinType::Full);
    let full = left._full_join_from_series(rt, alloc, right, left_key, right_key, args, exec)?;
    Ok(full.height())
}

// Each join of two tables by a column of each.
fn check_joins(
    rt: &(impl Threads + Sync + Abort),
    alloc: Global,
    left: &DataFrame,
    right: &DataFrame,
    exec: &Exec,
) -> Result<(), Fail> {
    let left_key = left.column(alloc, "k")?.as_materialized_series();
    let right_key = right.column(alloc, "k")?.as_materialized_series();
    assert!(rt; are_keys(left_key, right_key));
    assert!(rt; left_key.len() == left.height());
    check_met(rt, alloc, left, left_key, right_key, exec)?;
    assert!(rt; stand_beside(left, right, left_key, right_key));
    assert!(rt; full_rows(rt, alloc, left, right, left_key, right_key, exec)? == 4);
    check_halves(
        rt,
        alloc,
        left.copy(alloc)?,
        right,
        left_key,
        right_key,
        exec,
    )
}

#[test]
fn joins_by_one_column_of_each_side(rt: HostRuntime) -> Result<(), Fail> {
    let request = join_asked(rt.alloc(), SIDES)?;
    let (left, right) = (&request.left, &request.right);
    check_joins(&rt, rt.alloc(), left, right, &Exec::standard())?;
    check_joins(&rt, rt.alloc(), left, right, &Exec::new(2, 2, 0, 1, 1)?)
}

// The Inner join of two tables by columns that are given beside each.
fn joined_by(
    rt: &(impl Threads + Sync),
    alloc: Global,
    left: &DataFrame,
    right: &DataFrame,
    left_keys: Vec<Series>,
    right_keys: Vec<Series>,
    exec: &Exec,
) -> PolarsResult<DataFrame> {
    let args = JoinArgs::new(JoinType::Inner);
    left._join_impl(rt, alloc, right, left_keys, right_keys, args, exec)
}

// The join of two tables by their keys, which are given.
fn by_given_columns(
    rt: &(impl Threads + Sync),
    alloc: Global,
    left: &DataFrame,
    right: &DataFrame,
    exec: &Exec,
) -> Result<DataFrame, Fail> {
    let left_keys = one_key(alloc, left)?;
    let right_keys = one_key(alloc, right)?;
    Ok(joined_by(rt, alloc, left, right, left_keys, right_keys, exec)?)
}

fn check_given(
    rt: &(impl Threads + Sync + Abort),
    alloc: Global,
    left: &DataFrame,
    right: &DataFrame,
    exec: &Exec,
) -> Result<(), Fail> {
    let joined = by_given_columns(rt, alloc, left, right, exec)?;
    let line = r#"{"columns":[{"name":"k","type":"i64","values":[1,1]}],"height":2}"#;
    check_text(rt, alloc, joined, line)
}

#[test]
fn a_join_by_given_columns(rt: HostRuntime) -> Result<(), Fail> {
    let request = join_asked(rt.alloc(), SIDES)?;
    let (left, right) = (&request.left, &request.right);
    check_given(&rt, rt.alloc(), left, right, &Exec::standard())?;
    check_given(&rt, rt.alloc(), left, right, &Exec::new(2, 2, 0, 1, 1)?)
}

// The rows of a table that ids name, as a Left join takes them: the ids ascend.
fn left_rows(
    rt: &(impl Threads + Sync),
    alloc: Global,
    table: &DataFrame,
    ids: &[StandardChunkId],
) -> Result<DataFrame, OutOfMemory>
    requires named { All (NameRows ids.now) table.now }
    requires present { All (λ (id : Id). IsSome id) ids.now }
    requires in_order { StandInOrder Ascending ids.now }
    requires few { length ids.now ≤ MAX_ROWS }
{
    table.create_left_df_chunked(rt, alloc, ids, true, false)
}

// Rows of the table of a column.
fn rising_rows(
    rt: &(impl Threads + Sync),
    alloc: Global,
    table: &DataFrame,
    column: &Series,
) -> Result<DataFrame, Fail>
    requires { table.now ≡ column.now ∷ [] }
{
    let ids = rising_ids(alloc, column)?;
    Ok(left_rows(rt, alloc, table, &ids)?)
}

fn check_rising(
    rt: &(impl Threads + Sync + Abort),
    alloc: Global,
    table: &DataFrame,
    column: &Series,
) -> Result<(), Fail>
    requires { table.now ≡ column.now ∷ [] }
{
    let line = r#"{"columns":[{"name":"a","type":"i64","values":[10,10,20,30]}],"height":4}"#;
    check_text(rt, alloc, rising_rows(rt, alloc, table, column)?, line)
}

// The whole table, by the numbers of its rows.
fn check_whole(
    rt: &(impl Threads + Sync + Abort),
    alloc: Global,
    table: &DataFrame,
) -> Result<(), Fail> {
    if table.height() != 3 {
        return Err(Fail::from("another height"));
    }
    let whole = table._create_left_df_from_slice(rt, alloc, &[0, 1, 2], true, false, true)?;
    assert!(rt; whole.equals_missing(table));
    Ok(())
}

// Two rows, of which the first is cut off.
fn check_cut(
    rt: &(impl Threads + Sync + Abort),
    alloc: Global,
    table: &DataFrame,
) -> Result<(), Fail> {
    if table.height() != 3 {
        return Err(Fail::from("another height"));
    }
    let kept = table._finish_anti_semi_join(rt, alloc, &[0, 2], Some((1, 1)))?;
    let line = r#"{"columns":[{"name":"a","type":"i64","values":[30]}],"height":1}"#;
    check_text(rt, alloc, kept, line)
}

#[test]
fn rows_that_were_found_before(rt: HostRuntime) -> Result<(), Fail> {
    let (table, column) = with_table(rt.alloc(), three_numbers(rt.alloc())?)?;
    check_rising(&rt, rt.alloc(), &table, &column)?;
    check_whole(&rt, rt.alloc(), &table)?;
    check_cut(&rt, rt.alloc(), &table)
}

// Two tables of one height side by side.
fn side_by_side(alloc: Global, left: DataFrame, right: DataFrame) -> Result<DataFrame, Fail> {
    if left.height() != right.height() {
        return Err(Fail::from("other heights"));
    }
    Ok(_finish_join(alloc, left, right, None)?)
}

// A table beside itself.
fn twice(alloc: Global, column: Series) -> Result<DataFrame, Fail> {
    let table = table_with(alloc, column.into_column())?;
    let copy = table.copy(alloc)?;
    side_by_side(alloc, table, copy)
}

#[test]
fn tables_side_by_side(rt: HostRuntime) -> Result<(), Fail> {
    let table = twice(rt.alloc(), three_numbers(rt.alloc())?)?;
    let line =
        r#"{"columns":[{"name":"a","type":"i64","values":[10,20,30]},{"name":"a_right","type":"i64","values":[10,20,30]}],"height":3}"#;
    check_text(&rt, rt.alloc(), table, line)
}

// The columns of a Full join, whose keys stand side by side.
fn with_both_keys(alloc: Global) -> Result<DataFrame, Fail>
    ensures { IfOk result HasBothKeys }
{
    let mut columns = Vec::new(alloc);
    columns.push(column(alloc, "k", &[&[Some(1), None]])?.into_column())?;
    columns.push(column(alloc, "k_right", &[&[None, Some(2)]])?.into_column())?;
    Ok(DataFrame::new(alloc, columns)?)
}

// Such a table with its keys in one column.
fn merged_keys(
    alloc: Global,
    joined: DataFrame,
    key: &PlSmallStr,
    left: &DataFrame,
) -> Result<DataFrame, OutOfMemory>
    requires both { HasBothKeys joined }
    requires name { key.now ≡ codes "k" }
{
    let keys = slice::from_ref(key);
    _coalesce_full_join(alloc, joined, keys, keys, None, left)
}

// The columns of a Full join, whose keys stand in one column.
fn with_one_key(alloc: Global, left: &DataFrame) -> Result<DataFrame, Fail> {
    let key = PlSmallStr::from_str(alloc, "k")?;
    let joined = with_both_keys(alloc)?;
    Ok(merged_keys(alloc, joined, &key, left)?)
}

fn check_one_key(rt: &impl Abort, alloc: Global, left: &DataFrame) -> Result<(), Fail> {
    let merged = with_one_key(alloc, left)?;
    let line = r#"{"columns":[{"name":"k","type":"i64","values":[1,2]}],"height":2}"#;
    check_text(rt, alloc, merged, line)
}

#[test]
fn keys_of_a_joined_table(rt: HostRuntime) -> Result<(), Fail> {
    let left = table_with(
        rt.alloc(),
        column(rt.alloc(), "k", &[&[Some(1)]])?.into_column(),
    )?;
    check_one_key(&rt, rt.alloc(), &left)
}
