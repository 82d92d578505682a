//! The members of an object.
ghost use Rattle.std.specs.Prelude.{◌≡◌, codes, map, option_map, IfOk};
ghost use Rattle.tb_tree.specs.View.{view};
ghost use Rattle.serde_json.specs.Find.{as_bool, as_str, get};
ghost use Rattle.tb_json.specs.Promise.Lists.{as_list, has_only, list_of};
ghost use Rattle.tb_request.specs.Promise.Members.{known_views, names_of};
ghost use Rattle.tb_request.specs.Promise.Written.{name_at, text_at, texts_at, texts_if_at, truth_at};

use crate::known::{Known, is_among};
use std::alloc::Global;
use tb_tree::Value;
use tb_value::{OutOfMemory, PlSmallStr};

/// Whether the value is an object that has no member but these.
pub fn has_only(value: &Value, known: &[Known]) -> bool
    ensures { result ≡ has_only (names_of (known_views known.now)) (view value.now) }
{
    let Some(members) = value.as_object() else {
        return false;
    };
    for name in members.keys() {
        if !is_among(name.as_str(), known) {
            return false;
        }
    }
    true
}

/// A truth value, false where the member is absent.
pub fn truth_at(object: &Value, name: &str) -> Option<bool>
    ensures { result ≡ truth_at name.now (view object.now) }
{
    match object.get(name) {
        Some(member) => member.as_bool(),
        None => Some(false),
    }
}

/// The text of a member, or None where it is absent or no text.
pub fn name_at(alloc: Global, object: &Value, name: &str) -> Result<Option<PlSmallStr>, OutOfMemory>
    ensures { IfOk result (λ o. o ≡ name_at name.now (view object.now)) }
{
    match object.get(name).and_then(Value::as_str) {
        Some(text) => Ok(Some(PlSmallStr::from_str(alloc, text)?)),
        None => Ok(None),
    }
}

/// The text of a member, or no text where it is absent; None where it is none.
pub fn text_at(
    alloc: Global,
    object: &Value,
    name: &str,
) -> Result<Option<Option<PlSmallStr>>, OutOfMemory>
    ensures { IfOk result (λ o. o ≡ text_at name.now (view object.now)) }
{
    let Some(member) = object.get(name) else {
        return Ok(Some(None));
    };
    match member.as_str() {
        Some(text) => Ok(Some(Some(PlSmallStr::from_str(alloc, text)?))),
        None => Ok(None),
    }
}

// The texts of a list of texts, or None where the value is none.
fn texts_of(alloc: Global, value: &Value) -> Result<Option<Vec<PlSmallStr>>, OutOfMemory>
    ensures { IfOk result (λ o. option_map (λ v. v.items) o ≡ list_of as_str (view value.now)) }
{
    let Some(items) = value.as_array() else {
        return Ok(None);
    };
    let len = items.len();
    let mut texts = Vec::with_capacity(alloc, len)?;
    for i in 0..len {
        let Some(text) = items.at(i).as_str() else {
            return Ok(None);
        };
        texts.push(PlSmallStr::from_str(alloc, text)?)?;
    }
    Ok(Some(texts))
}

/// The truth values of a list of them, or None where the value is none.
pub fn truths_of(alloc: Global, value: &Value) -> Result<Option<Vec<bool>>, OutOfMemory>
    ensures { IfOk result (λ o. option_map (λ v. v.items) o ≡ list_of as_bool (view value.now)) }
{
    let Some(items) = value.as_array() else {
        return Ok(None);
    };
    let len = items.len();
    let mut truths = Vec::with_capacity(alloc, len)?;
    for i in 0..len {
        let Some(truth) = items.at(i).as_bool() else {
            return Ok(None);
        };
        truths.push(truth)?;
    }
    Ok(Some(truths))
}

/// The texts of a member that is a list of texts.
pub fn texts_at(
    alloc: Global,
    object: &Value,
    name: &str,
) -> Result<Option<Vec<PlSmallStr>>, OutOfMemory>
    ensures { IfOk result (λ o. option_map (λ v. v.items) o ≡ texts_at name.now (view object.now)) }
{
    match object.get(name) {
        Some(member) => texts_of(alloc, member),
        None => Ok(None),
    }
}

/// The same, or no texts where the member is absent.
pub fn texts_if_at(
    alloc: Global,
    object: &Value,
    name: &str,
) -> Result<Option<Option<Vec<PlSmallStr>>>, OutOfMemory>
    ensures { IfOk result (λ o.
        option_map (option_map (λ v. v.items)) o ≡ texts_if_at name.now (view object.now)) }
{
    let Some(member) = object.get(name) else {
        return Ok(Some(None));
    };
    Ok(texts_of(alloc, member)?.map(Some))
}

/// The values of an array, or None where the value is none.
pub fn into_array(alloc: Global, value: Value) -> Result<Option<Vec<Value>>, OutOfMemory>
    ensures { IfOk result (λ o. option_map (λ v. map view v.items) o ≡ as_list (view value)) }
{
    let values = value.into_array(alloc)?;
    Ok(values)
}

/// The member of an object.
pub fn into_member(object: Value, name: &str) -> Option<Value>
    ensures { option_map view result ≡ get name.now (view object) }
{
    let mut members = object.into_object()?;
    members.remove(name)
}

/// The members `left` and `right` of an object.
pub(crate) fn into_sides(object: Value) -> (Option<Value>, Option<Value>)
    ensures left { option_map view result.0 ≡ get (codes "left") (view object) }
    ensures right { option_map view result.1 ≡ get (codes "right") (view object) }
{
    let Some(mut members) = object.into_object() else {
        return (None, None);
    };
    let left = members.remove("left");
    let right = members.remove("right");
    (left, right)
}
