//! Whether keys stand twice, on a side that is asked to have each key once.
ghost use Rattle.std.specs.Prelude.{◌≡◌, ◌∷◌, [], false};
ghost use Rattle.tb_value.specs.Promise.Refusals.{first_cause};
ghost use Rattle.tb_value.specs.Refusals.{Settles};
ghost use Rattle.tb_frame.specs.Promise.Refusal.{broken_left, broken_right};
ghost use Rattle.tb_build.specs.Keys.{key_twins};
ghost use Rattle.tb_hash.specs.Twins.{validation_cause};
ghost use Rattle.tb_keys.specs.Asked.{asked_request};
ghost use Rattle.tb_pairs.specs.KeyColumns.{AreKeysAlike};
ghost use Rattle.tb_pairs.specs.RowKeys.{AreRowKeysOf};
ghost use Rattle.tb_alone.specs.Keys.{coded_list, key_validations, same_key};

use crate::keys::LentRowKeys;
use std::alloc::Global;
use tb_build::have_twins;
use tb_frame::{JoinType, JoinValidation};
use tb_keys::LentRequest;
use tb_rowkey::{RowKeys, know_columns};
use tb_value::{ComputeCause, PolarsError, PolarsResult, Side};

// Refuses a side that has a key twice (Validation), where it is asked to have each once.
fn check_side(
    alloc: Global,
    how: JoinType,
    side: Side,
    is_asked: bool,
    keys: &RowKeys,
) -> PolarsResult<()>
    ensures { Settles result
        (validation_cause side how is_asked (key_twins same_key false (coded_list keys.now))) }
{
    if !(how.is_validated() && is_asked) {
        return Ok(());
    }
    keys.know_rows();
    if have_twins(alloc, &LentRowKeys { keys }, false)? {
        return Err(PolarsError::ComputeError(ComputeCause::Validation(side)));
    }
    Ok(())
}

// Refuses the left side, and then the right one.
fn check_both(
    alloc: Global,
    how: JoinType,
    validation: JoinValidation,
    left: &RowKeys,
    right: &RowKeys,
) -> PolarsResult<()>
    ensures { Settles result
        (first_cause
        (key_validations how validation (coded_list left.now) (coded_list right.now))) }
{
    check_side(alloc, how, Side::Left, validation.asks_left(), left)?;
    check_side(alloc, how, Side::Right, validation.asks_right(), right)
}

/// Refuses a side that is asked to have each key once and has a key twice (Validation), the left one first. A Semi or
/// an Anti join looks at neither.
pub(crate) fn check_keys(
    alloc: Global,
    request: &LentRequest<'_>,
    left: &RowKeys,
    right: &RowKeys,
) -> PolarsResult<()>
    requires alike { AreKeysAlike request.now }
    requires keys { AreRowKeysOf request.now left.now right.now }
    ensures { Settles result
        (first_cause
        (broken_left (asked_request request.now) ∷ broken_right (asked_request request.now)
        ∷ [])) }
{
    know_columns(request.left_keys);
    know_columns(request.right_keys);
    check_both(alloc, request.how, request.args.validation, left, right)
}
