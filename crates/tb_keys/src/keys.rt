//! The types of the keys.
ghost use Rattle.tb_value.specs.Promise.Refusals.{first_cause};
ghost use Rattle.tb_value.specs.Refusals.{Settles, SettlesOutright};
ghost use Rattle.tb_frame.specs.Promise.Refusal.{column_causes, key_kind, key_types};
ghost use Rattle.tb_keys.specs.Asked.{asked_request};

use crate::names::check_answer_names;
use crate::request::LentRequest;
use std::alloc::Global;
use tb_frame::same_type;
use tb_value::{ComputeCause, InvalidCause, PolarsError, PolarsResult};

// Refuses the first place whose two types differ (KeyTypes).
fn check_types(request: &LentRequest<'_>) -> PolarsResult<()>
    ensures { SettlesOutright result (key_types (asked_request request.now)) }
{
    for place in 0..request.places() {
        if !same_type(request.left_keys[place], request.right_keys[place]) {
            return Err(PolarsError::ComputeError(ComputeCause::KeyTypes { place }));
        }
    }
    Ok(())
}

// Refuses the first place whose left type is no key type (KeyKind).
fn check_kinds(request: &LentRequest<'_>) -> PolarsResult<()>
    ensures { SettlesOutright result (key_kind (asked_request request.now)) }
{
    for place in 0..request.places() {
        if !request.left_keys[place].dtype().is_key() {
            return Err(PolarsError::InvalidOperation(InvalidCause::KeyKind { place }));
        }
    }
    Ok(())
}

/// Refuses, in this order, the first place at which the keys are of different types (KeyTypes), the first place at
/// which they are of a type that has no keys (KeyKind), and the first repeated name of the columns that the join puts
/// side by side (Duplicate).
pub fn check_columns(alloc: Global, request: &LentRequest<'_>) -> PolarsResult<()>
    ensures { Settles result (first_cause (column_causes (asked_request request.now))) }
{
    check_types(request)?;
    check_kinds(request)?;
    check_answer_names(alloc, request)
}
