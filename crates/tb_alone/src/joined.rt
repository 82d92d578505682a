//! The join of two tables on one thread.
ghost use Rattle.std.specs.Prelude.{◌≡◌, IfOk};
ghost use Rattle.tb_value.specs.Promise.Refusals.{first_cause};
ghost use Rattle.tb_value.specs.Refusals.{Settles};
ghost use Rattle.tb_frame.specs.Answer.{ArePairsOf};
ghost use Rattle.tb_frame.specs.Join.{lent_request};
ghost use Rattle.tb_frame.specs.Promise.Join.{listing};
ghost use Rattle.tb_frame.specs.Promise.Refusal.{row_causes, too_many_rows};
ghost use Rattle.tb_join.specs.Ready.{HaveKeys};
ghost use Rattle.tb_keys.specs.Asked.{asked_request};
ghost use Rattle.tb_keys.specs.Causes.{later_refusal};
ghost use Rattle.tb_keys.specs.Promise.Answers.{IsJoinOf};
ghost use Rattle.tb_pairs.specs.KeyColumns.{AreKeysAlike};
ghost use Rattle.tb_pairs.specs.RowKeys.{AreRowKeysOf};

use crate::found::rows_at_each;
use crate::keys::{LentRowKeys, row_keys};
use crate::listing::list_found;
use crate::table::key_table;
use crate::validation::check_keys;
use std::alloc::Global;
use tb_frame::{DataFrame, JoinArgs, arrange};
use tb_keys::{LentRequest, NamedRequest, check_columns, check_sides, check_size, list_pairs};
use tb_nested::answer_table;
use tb_rowkey::{RowKeys, know_columns};
use tb_value::{JoinPair, PlSmallStr, PolarsResult};

// The listing of a request by the keys of its rows. Refuses too many pairs.
fn pairs_by_key(
    alloc: Global,
    request: &LentRequest<'_>,
    left: &RowKeys,
    right: &RowKeys,
) -> PolarsResult<Vec<JoinPair>>
    requires alike { AreKeysAlike request.now }
    requires keys { AreRowKeysOf request.now left.now right.now }
    ensures settles { Settles result (too_many_rows (asked_request request.now)) }
    ensures listed { IfOk result (λ v. v.items ≡ listing (asked_request request.now)) }
{
    know_columns(request.left_keys);
    know_columns(request.right_keys);
    right.know_rows();
    let table = key_table(alloc, &LentRowKeys { keys: right })?;
    let found = rows_at_each(alloc, &table, &LentRowKeys { keys: left })?;
    list_found(alloc, request, &found)
}

// The same, where no side is asked to have each key once and has one twice.
fn checked_by_key(
    alloc: Global,
    request: &LentRequest<'_>,
    left: &RowKeys,
    right: &RowKeys,
) -> PolarsResult<Vec<JoinPair>>
    requires alike { AreKeysAlike request.now }
    requires keys { AreRowKeysOf request.now left.now right.now }
    ensures settles { Settles result (first_cause (row_causes (asked_request request.now))) }
    ensures listed { IfOk result (λ v. v.items ≡ listing (asked_request request.now)) }
{
    check_keys(alloc, request, left, right)?;
    pairs_by_key(alloc, request, left, right)
}

// The same, each left row compared with each right one, field by field.
fn checked_by_field(alloc: Global, request: &LentRequest<'_>) -> PolarsResult<Vec<JoinPair>>
    ensures settles { Settles result (first_cause (row_causes (asked_request request.now))) }
    ensures listed { IfOk result (λ v. v.items ≡ listing (asked_request request.now)) }
{
    check_sides(request)?;
    let pairs = list_pairs(alloc, request)?;
    check_size(&pairs)?;
    Ok(pairs)
}

// The listing of a request: by the keys of its rows, or where a row is too long for one by its fields.
fn listed_pairs(alloc: Global, request: &LentRequest<'_>) -> PolarsResult<Vec<JoinPair>>
    requires alike { AreKeysAlike request.now }
    ensures settles { Settles result (first_cause (row_causes (asked_request request.now))) }
    ensures listed { IfOk result (λ v. v.items ≡ listing (asked_request request.now)) }
{
    let nulls = &request.args.join_nulls;
    let left = row_keys(alloc, nulls, request.left_keys)?;
    let right = row_keys(alloc, nulls, request.right_keys)?;
    match (&left, &right) {
        (Some(left), Some(right)) => checked_by_key(alloc, request, left, right),
        _ => checked_by_field(alloc, request),
    }
}

// The pairs of the answer, where no cause refuses the key columns, the names, the sides or the size.
fn checked_pairs(alloc: Global, request: &LentRequest<'_>) -> PolarsResult<Vec<JoinPair>>
    requires { HaveKeys request.now }
    ensures settles { Settles result (later_refusal (asked_request request.now)) }
    ensures listed { IfOk result (λ v. ArePairsOf (asked_request request.now) v.items) }
{
    check_columns(alloc, request)?;
    let pairs = listed_pairs(alloc, request)?;
    Ok(arrange(pairs, request.how, request.args)?)
}

/// The join of two tables as its definition says, which two nested loops over the rows of the tables mean; here the keys
/// of the right rows are sorted, and those of the left rows looked up among them. It takes all arguments: any kind, order,
/// slice, suffix, coalescing, validation and number of keys, and keys that are absent match where it is asked, each key
/// by itself.
///
/// Only where a row is too long for a key, which takes 2^32 bytes, each left row is compared with each right one.
///
/// # Errors
///
/// Those of `nested_join` of `tb_nested`, by the same order, or OutOfMemory.
pub fn join_alone(
    alloc: Global,
    left: &DataFrame,
    right: &DataFrame,
    left_on: &[PlSmallStr],
    right_on: &[PlSmallStr],
    args: &JoinArgs,
) -> PolarsResult<DataFrame>
    ensures { IsJoinOf (lent_request left.now right.now left_on.now right_on.now args.now) result }
{
    let named = NamedRequest {
        left,
        right,
        left_on,
        right_on,
        args,
    };
    let keys = named.key_columns(alloc)?;
    let request = named.with_keys(&keys);
    let pairs = checked_pairs(alloc, &request)?;
    answer_table(alloc, &request, &pairs)
}
