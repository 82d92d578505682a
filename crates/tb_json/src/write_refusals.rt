//! The texts of refusals.
ghost use Rattle.std.specs.Prelude.{◌≡◌, IfOk, codes, string_bytes};
ghost use Rattle.serde_json.specs.Data.{string, number, unsigned};
ghost use Rattle.serde_json.specs.View.{view};
ghost use Rattle.tb_json.specs.Promise.Text.{side_word, plain_error, named_error, caused, caused_with, caused_by_two, invalid_data, compute_data, error_data, text_of_refusal};

use serde_json::{Value, json};
use std::alloc::Global;
use tb_value::{ComputeCause, InvalidCause, OutOfMemory, PlSmallStr, PolarsError, Side};

fn side_word(side: Side) -> &'static str
    ensures { result.now ≡ side_word side }
{
    match side {
        Side::Left => "left",
        Side::Right => "right",
    }
}

fn plain(alloc: Global, error: &str) -> Result<Value, OutOfMemory>
    ensures { IfOk result (λ v. view v ≡ plain_error error.now) }
{
    Ok(json!(in alloc; {"error": error})?)
}

fn named(alloc: Global, error: &str, name: &PlSmallStr) -> Result<Value, OutOfMemory>
    ensures { IfOk result (λ v. view v ≡ named_error error.now name.now) }
{
    Ok(json!(in alloc; {"error": error, "name": name.as_str()})?)
}

fn caused(alloc: Global, cause: &str, error: &str) -> Result<Value, OutOfMemory>
    ensures { IfOk result (λ v. view v ≡ caused cause.now error.now) }
{
    Ok(json!(in alloc; {"cause": cause, "error": error})?)
}

fn caused_by_name(
    alloc: Global,
    cause: &str,
    error: &str,
    name: &PlSmallStr,
) -> Result<Value, OutOfMemory>
    ensures { IfOk result (λ v. view v ≡ caused_with cause.now error.now (codes "name") (string name.now)) }
{
    Ok(json!(in alloc; {"cause": cause, "error": error, "name": name.as_str()})?)
}

fn caused_at(alloc: Global, cause: &str, error: &str, place: usize) -> Result<Value, OutOfMemory>
    ensures { IfOk result (λ v. view v
        ≡ caused_with cause.now error.now (codes "place") (number (unsigned place))) }
{
    Ok(json!(in alloc; {"cause": cause, "error": error, "place": place})?)
}

fn invalid_value(alloc: Global, cause: &InvalidCause) -> Result<Value, OutOfMemory>
    ensures { IfOk result (λ v. view v ≡ invalid_data cause.now) }
{
    match cause {
        InvalidCause::NoKeys => caused(alloc, "NoKeys", "InvalidOperation"),
        InvalidCause::KeyCounts { left, right } => key_counts(alloc, *left, *right),
        InvalidCause::NullFlags { flags, keys } => null_flags(alloc, *flags, *keys),
        InvalidCause::KeyKind { place } => {
            caused_at(alloc, "KeyKind", "InvalidOperation", *place)
        }
        InvalidCause::BothNone => caused(alloc, "BothNone", "InvalidOperation"),
        InvalidCause::HeaderType(name) => {
            caused_by_name(alloc, "HeaderType", "InvalidOperation", name)
        }
        InvalidCause::AggType(name) => {
            caused_by_name(alloc, "AggType", "InvalidOperation", name)
        }
        InvalidCause::NoSupertype(name) => {
            caused_by_name(alloc, "NoSupertype", "InvalidOperation", name)
        }
    }
}

fn key_counts(alloc: Global, left: usize, right: usize) -> Result<Value, OutOfMemory>
    ensures { IfOk result (λ v. view v ≡ invalid_data (InvalidCause.KeyCounts left right)) }
{
    Ok(json!(in alloc; {
        "cause": "KeyCounts",
        "error": "InvalidOperation",
        "left": left,
        "right": right
    })?)
}

fn null_flags(alloc: Global, flags: usize, keys: usize) -> Result<Value, OutOfMemory>
    ensures { IfOk result (λ v. view v ≡ invalid_data (InvalidCause.NullFlags flags keys)) }
{
    Ok(json!(in alloc; {
        "cause": "NullFlags",
        "error": "InvalidOperation",
        "flags": flags,
        "keys": keys
    })?)
}

fn validation(alloc: Global, side: Side) -> Result<Value, OutOfMemory>
    ensures { IfOk result (λ v. view v ≡ compute_data (ComputeCause.Validation side)) }
{
    Ok(json!(in alloc; {
        "cause": "Validation",
        "error": "ComputeError",
        "side": side_word(side)
    })?)
}

fn evaluate_length(alloc: Global, groups: usize, values: usize) -> Result<Value, OutOfMemory>
    ensures { IfOk result (λ v. view v ≡ compute_data (ComputeCause.EvaluateLength groups values)) }
{
    Ok(json!(in alloc; {
        "cause": "EvaluateLength",
        "error": "ComputeError",
        "groups": groups,
        "values": values
    })?)
}

fn evaluate(alloc: Global, number: u32) -> Result<Value, OutOfMemory>
    ensures { IfOk result (λ v. view v ≡ compute_data (ComputeCause.Evaluate number)) }
{
    Ok(json!(in alloc; {
        "cause": "Evaluate",
        "error": "ComputeError",
        "number": number
    })?)
}

fn compute_value(alloc: Global, cause: &ComputeCause) -> Result<Value, OutOfMemory>
    ensures { IfOk result (λ v. view v ≡ compute_data cause.now) }
{
    match cause {
        ComputeCause::KeyTypes { place } => caused_at(alloc, "KeyTypes", "ComputeError", *place),
        ComputeCause::Validation(side) => validation(alloc, *side),
        ComputeCause::TooManyRows => caused(alloc, "TooManyRows", "ComputeError"),
        ComputeCause::EmptyIndex => caused(alloc, "EmptyIndex", "ComputeError"),
        ComputeCause::EmptyOn => caused(alloc, "EmptyOn", "ComputeError"),
        ComputeCause::BraceName(name) => {
            caused_by_name(alloc, "BraceName", "ComputeError", name)
        }
        ComputeCause::ManyInGroup => caused(alloc, "ManyInGroup", "ComputeError"),
        ComputeCause::SumRange(name) => caused_by_name(alloc, "SumRange", "ComputeError", name),
        ComputeCause::EvaluateLength { groups, values } => {
            evaluate_length(alloc, *groups, *values)
        }
        ComputeCause::Evaluate(number) => evaluate(alloc, *number),
    }
}

/// The JSON value of a refusal, whose text `text_of_refusal` writes.
pub fn error_value(alloc: Global, error: &PolarsError) -> Result<Value, OutOfMemory>
    ensures { IfOk result (λ v. view v ≡ error_data error.now) }
{
    match error {
        PolarsError::ColumnNotFound(name) => named(alloc, "ColumnNotFound", name),
        PolarsError::InvalidOperation(cause) => invalid_value(alloc, cause),
        PolarsError::ComputeError(cause) => compute_value(alloc, cause),
        PolarsError::Duplicate(name) => named(alloc, "Duplicate", name),
        PolarsError::ShapeMismatch => plain(alloc, "ShapeMismatch"),
        PolarsError::SchemaMismatch => plain(alloc, "SchemaMismatch"),
        PolarsError::OutOfMemory => plain(alloc, "OutOfMemory"),
    }
}

/// The text of a refusal, with the newline that ends it.
pub fn text_of_refusal(alloc: Global, error: &PolarsError) -> Result<String, OutOfMemory>
    ensures { IfOk result (λ s. string_bytes s ≡ text_of_refusal error.now) }
{
    let mut text = error_value(alloc, error)?.to_string(alloc)?;
    text.push_str("\n")?;
    Ok(text)
}
