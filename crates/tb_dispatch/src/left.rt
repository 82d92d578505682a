//! The two sides of a Left join, each by itself.
ghost use Rattle.std.specs.Prelude.{◌≡◌, ◌≤◌, All, IfOk, None, length, map};
ghost use Rattle.tb_value.specs.Promise.Refusals.{first_cause};
ghost use Rattle.tb_value.specs.Refusals.{Settles};
ghost use Rattle.tb_chunk.specs.Rows.{IsRowOf};
ghost use Rattle.tb_frame.specs.Answer.{IsPairOf};
ghost use Rattle.tb_frame.specs.Frame.{opt_taken_rows, without_names};
ghost use Rattle.tb_frame.specs.Promise.Refusal.{null_flags, row_causes};
ghost use Rattle.tb_frame.specs.Promise.Table.{height, table_of};
ghost use Rattle.tb_dispatch.specs.Given.{StandBeside, by_series};
ghost use Rattle.tb_dispatch.specs.Halves.{AreHalves, AreOver, dropped_names};

use std::alloc::Global;
use std::slice;
use std::thread::Threads;
use tb_frame::{DataFrame, JoinArgs, JoinType};
use tb_gather::{LeftRow, RightRow, RowOf, made_table};
use tb_join::side_rows;
use tb_keys::LentRequest;
use tb_pairs::listed_pairs;
use tb_pool::Exec;
use tb_store::Series;
use tb_value::{IsSorted, JoinPair, MAX_ROWS, OutOfMemory, PlSmallStr, PolarsResult};

// The table of a side over the pairs, but for the columns of the names that go.
fn half<S: RowOf<JoinPair>>(
    rt: &(impl Threads + Sync),
    alloc: Global,
    table: &DataFrame,
    gone: &[PlSmallStr],
    pairs: &[JoinPair],
) -> Result<DataFrame, OutOfMemory>
    requires rows { All (IsRowOf (height (table_of table.now))) (map S.number pairs.now) }
    requires few { length pairs.now ≤ MAX_ROWS }
    ensures { IfOk result (λ t.
        t ≡ map (opt_taken_rows (map S.number pairs.now)) (without_names gone.now table.now)) }
{
    let _columns = table.get_columns();
    let not = IsSorted::Not;
    let columns = side_rows::<S>(rt, alloc, table, gone, pairs, not)?;
    made_table(alloc, columns)
}

// The left columns over the pairs, and the right ones but for those of the names that go.
fn halves(
    rt: &(impl Threads + Sync),
    alloc: Global,
    left: &DataFrame,
    right: &DataFrame,
    gone: &[PlSmallStr],
    pairs: &[JoinPair],
) -> Result<(DataFrame, DataFrame), OutOfMemory>
    requires pairs { All (IsPairOf (height (table_of left.now)) (height (table_of right.now)))
        pairs.now }
    requires few { length pairs.now ≤ MAX_ROWS }
    ensures { IfOk result (AreOver pairs.now left.now (without_names gone.now right.now)) }
{
    let left = half::<LeftRow>(rt, alloc, left, &[], pairs)?;
    let right = half::<RightRow>(rt, alloc, right, gone, pairs)?;
    Ok((left, right))
}

// The names that go from the right side: those that are given, or that of its key where none are.
fn dropped<'a>(key: &'a Series, names: &'a Option<Vec<PlSmallStr>>) -> &'a [PlSmallStr]
    ensures { result.now ≡ dropped_names key.now.name names.now }
{
    match names {
        Some(names) => names.as_slice(),
        None => slice::from_ref(key.name()),
    }
}

/// The left and the right columns of the Left join by these keys, over its pairs in the order that is asked and cut by
/// the slice, before any is renamed. Of the right columns those of `drop_names` are left out, or where there is no list
/// that of the right key's name; a name that is no column is ignored. The kind that the arguments name is not read.
///
/// Each key column is as long as its table is high, and both have one key type. There is one flag for all keys, or one
/// for the one key.
///
/// # Errors
///
/// `Validation` of a side that is asked to have each key once and has a key twice, the left one first; `TooManyRows`
/// where there are more than `MAX_ROWS` pairs before they are cut, or `OutOfMemory`.
pub fn materialize_left_join_from_series(
    rt: &(impl Threads + Sync),
    alloc: Global,
    left: DataFrame,
    right_: &DataFrame,
    s_left: &Series,
    s_right: &Series,
    args: &JoinArgs,
    drop_names: Option<Vec<PlSmallStr>>,
    exec: &Exec,
) -> PolarsResult<(DataFrame, DataFrame)>
    requires keys { StandBeside left right_.now s_left.now s_right.now }
    requires flags { null_flags args.now.join_nulls 1 ≡ None }
    ensures settles { Settles result
        (first_cause
        (row_causes
        (by_series JoinType.Left left right_.now s_left.now s_right.now args.now))) }
    ensures halves { IfOk result (AreHalves (by_series JoinType.Left left right_.now s_left.now s_right.now args.now) left
        (without_names (dropped_names s_right.now.name drop_names) right_.now)) }
{
    let request = LentRequest {
        left: &left,
        right: right_,
        left_on: slice::from_ref(s_left.name()),
        right_on: slice::from_ref(s_right.name()),
        left_keys: &[s_left],
        right_keys: &[s_right],
        how: JoinType::Left,
        args,
    };
    let pairs = listed_pairs(rt, alloc, &request, exec)?;
    let gone = dropped(s_right, &drop_names);
    Ok(halves(rt, alloc, &left, right_, gone, &pairs)?)
}
