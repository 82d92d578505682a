//! The join of two tables by nested loops.
ghost use Rattle.std.specs.Prelude.{◌≡◌, IfOk};
ghost use Rattle.tb_value.specs.Promise.Refusals.{first_cause};
ghost use Rattle.tb_value.specs.Refusals.{Settles};
ghost use Rattle.tb_frame.specs.Answer.{ArePairsOf};
ghost use Rattle.tb_frame.specs.Join.{lent_request};
ghost use Rattle.tb_frame.specs.Promise.Refusal.{row_causes, too_many_rows};
ghost use Rattle.tb_keys.specs.Asked.{asked_request};
ghost use Rattle.tb_keys.specs.Causes.{later_refusal};
ghost use Rattle.tb_keys.specs.Promise.Answers.{IsJoinOf};

use crate::columns::answer_table;
use std::alloc::Global;
use tb_frame::{DataFrame, JoinArgs, arrange};
use tb_keys::{LentRequest, NamedRequest, check_columns, check_sides, check_size, list_pairs};
use tb_value::{JoinPair, PlSmallStr, PolarsResult};

// The pairs of the answer. Refuses too many of them before they are cut.
fn listed_pairs(alloc: Global, request: &LentRequest<'_>) -> PolarsResult<Vec<JoinPair>>
    ensures settles { Settles result (too_many_rows (asked_request request.now)) }
    ensures listed { IfOk result (λ v. ArePairsOf (asked_request request.now) v.items) }
{
    let pairs = list_pairs(alloc, request)?;
    check_size(&pairs)?;
    Ok(arrange(pairs, request.how, request.args)?)
}

// The pairs of the answer, where no cause refuses the sides or the size.
fn validated_pairs(alloc: Global, request: &LentRequest<'_>) -> PolarsResult<Vec<JoinPair>>
    ensures settles { Settles result (first_cause (row_causes (asked_request request.now))) }
    ensures listed { IfOk result (λ v. ArePairsOf (asked_request request.now) v.items) }
{
    check_sides(request)?;
    listed_pairs(alloc, request)
}

// The pairs of the answer, where no cause refuses the key columns, the names, the sides or the size.
fn checked_pairs(alloc: Global, request: &LentRequest<'_>) -> PolarsResult<Vec<JoinPair>>
    ensures settles { Settles result (later_refusal (asked_request request.now)) }
    ensures listed { IfOk result (λ v. ArePairsOf (asked_request request.now) v.items) }
{
    check_columns(alloc, request)?;
    validated_pairs(alloc, request)
}

/// The join of two tables as its definition says: two nested loops list the pairs of rows, and the answer has their
/// fields under the columns of the naming rule. It takes all arguments: any kind, order, slice, suffix, coalescing,
/// validation and number of keys, and keys that are absent match where it is asked, each key by itself.
///
/// The first of these that holds, or OutOfMemory:
/// 1. ColumnNotFound: a left key is no column of the left table, and then a right key none of the right;
/// 2. NoKeys: a side has no keys;
/// 3. KeyCounts: the sides have different numbers of keys;
/// 4. NullFlags: there is a flag for each key, and the flags are not as many as the keys;
/// 5. Duplicate: a left key is repeated, and then a right key;
/// 6. KeyTypes: the keys at a place are of different types;
/// 7. KeyKind: the keys at a place are of a type that has no keys;
/// 8. Duplicate: two columns of the answer would have this name, which is the first that is repeated;
/// 9. Validation: two left rows have equal keys and may not, and then two right rows;
/// 10. TooManyRows: the pairs are more than `MAX_ROWS`, before they are cut.
pub fn nested_join(
    alloc: Global,
    left: &DataFrame,
    right: &DataFrame,
    left_on: &[PlSmallStr],
    right_on: &[PlSmallStr],
    args: &JoinArgs,
) -> PolarsResult<DataFrame>
    ensures { IsJoinOf (lent_request left.now right.now left_on.now right_on.now args.now) result }
{
    let named = NamedRequest {
        left,
        right,
        left_on,
        right_on,
        args,
    };
    let keys = named.key_columns(alloc)?;
    let request = named.with_keys(&keys);
    let pairs = checked_pairs(alloc, &request)?;
    answer_table(alloc, &request, &pairs)
}
