//! The names of the keys.
ghost use Rattle.tb_value.specs.Promise.Refusals.{first_cause};
ghost use Rattle.tb_value.specs.Refusals.{Settles, SettlesOutright};
ghost use Rattle.std.specs.Prelude.{length};
ghost use Rattle.tb_frame.specs.Promise.Refusal.{key_counts, list_causes, no_keys, null_flags, repeated_name};
ghost use Rattle.tb_keys.specs.Asked.{asked_request};

use crate::request::LentRequest;
use std::alloc::Global;
use tb_frame::{JoinNulls, check_joined_names, check_repeated};
use tb_value::{InvalidCause, PlSmallStr, PolarsError, PolarsResult};

// Refuses a side without keys (NoKeys).
fn check_some(left_on: &[PlSmallStr], right_on: &[PlSmallStr]) -> PolarsResult<()>
    ensures { SettlesOutright result (no_keys left_on.now right_on.now) }
{
    if left_on.is_empty() || right_on.is_empty() {
        return Err(PolarsError::InvalidOperation(InvalidCause::NoKeys));
    }
    Ok(())
}

// Refuses different numbers of keys (KeyCounts).
fn check_counts(left_on: &[PlSmallStr], right_on: &[PlSmallStr]) -> PolarsResult<()>
    ensures { SettlesOutright result (key_counts left_on.now right_on.now) }
{
    let left = left_on.len();
    let right = right_on.len();
    if left != right {
        return Err(PolarsError::InvalidOperation(InvalidCause::KeyCounts { left, right }));
    }
    Ok(())
}

// Refuses flags that are not as many as the keys (NullFlags).
fn check_flags(nulls: &JoinNulls, left_on: &[PlSmallStr]) -> PolarsResult<()>
    ensures { SettlesOutright result (null_flags nulls.now (length left_on.now)) }
{
    let JoinNulls::Each(each) = nulls else {
        return Ok(());
    };
    let flags = each.as_slice().len();
    let keys = left_on.len();
    if flags != keys {
        return Err(PolarsError::InvalidOperation(InvalidCause::NullFlags { flags, keys }));
    }
    Ok(())
}

/// Refuses, in this order, a side without keys (NoKeys), different numbers of keys (KeyCounts), a flag for each key
/// where there are more or fewer flags (NullFlags), and a repeated key (Duplicate), the left side first.
pub fn check_lists(
    alloc: Global,
    nulls: &JoinNulls,
    left_on: &[PlSmallStr],
    right_on: &[PlSmallStr],
) -> PolarsResult<()>
    ensures { Settles result (first_cause (list_causes nulls.now left_on.now right_on.now)) }
{
    check_some(left_on, right_on)?;
    check_counts(left_on, right_on)?;
    check_flags(nulls, left_on)?;
    check_repeated(alloc, left_on)?;
    check_repeated(alloc, right_on)
}

/// Refuses the first repeated name of the columns that the join puts side by side (Duplicate).
pub fn check_answer_names(alloc: Global, request: &LentRequest<'_>) -> PolarsResult<()>
    ensures { Settles result (repeated_name (asked_request request.now)) }
{
    check_joined_names(
        alloc,
        request.left.get_columns(),
        request.right.get_columns(),
        request.left_on,
        request.right_on,
        request.how,
        request.args,
    )
}
