//! What is asked of a field, read from JSON.
ghost use Rattle.std.specs.Prelude.{◌≡◌, option_map, IfOk};
ghost use Rattle.serde_json.specs.Find.{as_str};
ghost use Rattle.tb_tree.specs.View.{view};
ghost use Rattle.tb_value.specs.See.{datum};
ghost use Rattle.tb_filter.specs.Seen.{check_of};
ghost use Rattle.tb_plan_request.specs.Promise.Written.{compared_at, compared_in, comparison_in, test_in, test_named};

use crate::known::{eq_members, less_members};
use std::alloc::Global;
use tb_filter::Test;
use tb_request::has_only;
use tb_tree::Value;
use tb_value::{AnyValue, OutOfMemory, PlSmallStr};

// What a field may be compared with.
fn compared_in(alloc: Global, value: &Value) -> Result<Option<AnyValue>, OutOfMemory>
    ensures { IfOk result (λ o. option_map datum o ≡ compared_in (view value.now)) }
{
    if let Some(truth) = value.as_bool() {
        return Ok(Some(AnyValue::Boolean(truth)));
    }
    if let Some(text) = value.as_str() {
        return Ok(Some(AnyValue::String(PlSmallStr::from_str(alloc, text)?)));
    }
    Ok(value.as_i128().map(AnyValue::Int))
}

fn compared_at(alloc: Global, object: &Value, name: &str) -> Result<Option<AnyValue>, OutOfMemory>
    ensures { IfOk result (λ o. option_map datum o ≡ compared_at name.now (view object.now)) }
{
    match object.get(name) {
        Some(member) => compared_in(alloc, member),
        None => Ok(None),
    }
}

fn test_named(word: &str) -> Option<Test>
    ensures { option_map check_of result ≡ test_named word.now }
{
    match word {
        "is_null" => Some(Test::IsNull),
        "is_not_null" => Some(Test::IsNotNull),
        _ => None,
    }
}

// An object with exactly one member, which says how the field is compared.
fn comparison_in(alloc: Global, value: &Value) -> Result<Option<Test>, OutOfMemory>
    ensures { IfOk result (λ o. option_map check_of o ≡ comparison_in (view value.now)) }
{
    if has_only(value, eq_members()) {
        Ok(compared_at(alloc, value, "eq")?.map(Test::Eq))
    } else if has_only(value, less_members()) {
        Ok(compared_at(alloc, value, "less")?.map(Test::Less))
    } else {
        Ok(None)
    }
}

/// What is asked of a field: a word, or a comparison. None where the value is neither.
pub(crate) fn test_in(alloc: Global, value: &Value) -> Result<Option<Test>, OutOfMemory>
    ensures { IfOk result (λ o. option_map check_of o ≡ test_in (view value.now)) }
{
    match value.as_str() {
        Some(word) => Ok(test_named(word)),
        None => comparison_in(alloc, value),
    }
}
