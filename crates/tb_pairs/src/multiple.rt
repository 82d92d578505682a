//! The Left join by all columns.
ghost use Rattle.std.specs.Prelude.{◌≡◌, IfOk};
ghost use Rattle.tb_value.specs.Refusals.{Settles};
ghost use Rattle.tb_chunk.specs.Lent.{lent_columns};
ghost use Rattle.tb_frame.specs.Answer.{ArePairsOf};
ghost use Rattle.tb_frame.specs.Promise.Join.{listing};
ghost use Rattle.tb_frame.specs.Promise.Refusal.{too_many_rows};
ghost use Rattle.tb_frame.specs.Promise.Table.{height, table_of};
ghost use Rattle.tb_keys.specs.Rows.{HasRows};
ghost use Rattle.tb_pairs.specs.AllColumns.{AreLeftJoined, by_all_columns};
ghost use Rattle.tb_pairs.specs.KeyColumns.{AreAlike};

use crate::listed::listed_pairs;
use either::Either;
use std::alloc::Global;
use std::thread::Threads;
use tb_frame::{DataFrame, JoinArgs, JoinNulls, JoinType, right_rows};
use tb_hash::{LeftJoinIds, left_numbers};
use tb_keys::LentRequest;
use tb_pool::Exec;
use tb_store::Series;
use tb_value::{JoinPair, OutOfMemory, PolarsResult};

// The columns of a table, lent one by one.
fn lent_series(alloc: Global, table: &DataFrame) -> Result<Vec<&Series>, OutOfMemory>
    ensures lent { IfOk result (λ v. lent_columns v.items ≡ table.now) }
    ensures rows { IfOk result (λ v. HasRows (height (table_of table.now)) (lent_columns v.items)) }
{
    let columns = table.get_columns();
    let mut lent = Vec::with_capacity(alloc, columns.len())?;
    for column in columns {
        lent.push(column.as_materialized_series())?;
    }
    Ok(lent)
}

// The pairs of a Left join by all columns, by left row and then right row.
fn pairs_by_all_columns(
    rt: &(impl Threads + Sync),
    alloc: Global,
    a: &DataFrame,
    b: &DataFrame,
    join_nulls: bool,
    exec: &Exec,
) -> PolarsResult<Vec<JoinPair>>
    requires { AreAlike a.now b.now }
    ensures settles { Settles result
        (too_many_rows (by_all_columns (table_of a.now) (table_of b.now) join_nulls)) }
    ensures listed { IfOk result (λ v.
        ArePairsOf (by_all_columns (table_of a.now) (table_of b.now) join_nulls) v.items) }
{
    let left_keys = lent_series(alloc, a)?;
    let right_keys = lent_series(alloc, b)?;
    let mut args = JoinArgs::new(JoinType::Left);
    args.join_nulls = JoinNulls::All(join_nulls);
    let request = LentRequest {
        left: a,
        right: b,
        left_on: &[],
        right_on: &[],
        left_keys: &left_keys,
        right_keys: &right_keys,
        how: JoinType::Left,
        args: &args,
    };
    listed_pairs(rt, alloc, &request, exec)
}

/// The left and the right row numbers of the pairs of a Left join by all columns, by left row and then right row; of a
/// left row without a match the right one is absent. There are as many columns in each table, one at least, of equal
/// key types.
///
/// # Errors
///
/// `TooManyRows` where there are more than `MAX_ROWS` pairs, or `OutOfMemory`.
pub fn private_left_join_multiple_keys(
    rt: &(impl Threads + Sync),
    alloc: Global,
    a: &DataFrame,
    b: &DataFrame,
    join_nulls: bool,
    exec: &Exec,
) -> PolarsResult<LeftJoinIds>
    requires { AreAlike a.now b.now }
    ensures settles { Settles result
        (too_many_rows (by_all_columns (table_of a.now) (table_of b.now) join_nulls)) }
    ensures rows { IfOk result
        (AreLeftJoined (listing (by_all_columns (table_of a.now) (table_of b.now) join_nulls))) }
{
    let pairs = pairs_by_all_columns(rt, alloc, a, b, join_nulls, exec)?;
    let left = left_numbers(alloc, &pairs)?;
    let right = right_rows(alloc, &pairs)?;
    Ok((Either::Left(left), Either::Left(right)))
}
