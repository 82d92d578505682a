//! Values, as texts write them.
ghost use Rattle.std.specs.Prelude.{◌≡◌, ◌≤ℤ◌, IfOk, pos, negsuc};
ghost use Rattle.std.specs.Str.{IsUtf8};
ghost use Rattle.hex.specs.Hex.{encode_lower};
ghost use Rattle.serde_json.specs.Data.{number, string};
ghost use Rattle.serde_json.specs.Find.{of_integer};
ghost use Rattle.serde_json.specs.View.{view, items_view};
ghost use Rattle.tb_value.specs.Promise.Datum.{items_of, int, struct};
ghost use Rattle.tb_value.specs.Promise.Kind.{parts_of};
ghost use Rattle.tb_value.specs.See.{lent_value};
ghost use Rattle.tb_value.specs.SeeKind.{kind_of, parts};
ghost use Rattle.tb_value.specs.Promise.Typed.{HasType, AreOf, AreEachOf};
ghost use Rattle.tb_json.specs.Promise.Text.{is_wide, number_data, value_data, items_data, fields_data};

use crate::scalar::scalar_type;
use serde_json::Value;
use std::alloc::Global;
use tb_value::{DataType, Fields, OutOfMemory, ValueRef, Values};

/// Whether the type is that of the whole numbers of 128 bits.
pub(crate) fn is_wide(dtype: &DataType) -> bool
    ensures { result ≡ is_wide (kind_of dtype.now) }
{
    match dtype {
        DataType::Int128 => true,
        _ => false,
    }
}

fn number_value(integer: i128) -> Value
    requires low { negsuc 9223372036854775807 ≤ℤ integer }
    requires high { integer ≤ℤ pos 18446744073709551615 }
    ensures { view result ≡ number (of_integer integer) }
{
    if integer < 0 {
        Value::from(integer as i64)
    } else {
        Value::from(integer as u64)
    }
}

#[tactic(auto, using(crate::proofs::Narrow::narrow))]
fn integer_value(alloc: Global, integer: i128, dtype: &DataType) -> Result<Value, OutOfMemory>
    requires { HasType (kind_of dtype.now) (int integer) }
    ensures { IfOk result (λ v. view v ≡ number_data (kind_of dtype.now) integer) }
{
    if is_wide(dtype) {
        let text = integer.to_string(alloc)?;
        return Ok(Value::String(text));
    }
    Ok(number_value(integer))
}

fn text_value(alloc: Global, bytes: &[u8]) -> Result<Value, OutOfMemory>
    requires { IsUtf8 bytes.now }
    ensures { IfOk result (λ v. view v ≡ string bytes.now) }
{
    match str::from_utf8(bytes) {
        Ok(text) => Ok(Value::try_from_str(alloc, text)?),
        Err(_) => unreachable!(),
    }
}

fn bytes_value(alloc: Global, bytes: &[u8]) -> Result<Value, OutOfMemory>
    ensures { IfOk result (λ v. view v ≡ string (encode_lower bytes.now)) }
{
    let text = hex::encode(alloc, bytes)?;
    Ok(Value::String(text))
}

/// The value, as a text writes it.
#[cycle(cells)]
pub(crate) fn cell_value(
    alloc: Global,
    value: ValueRef<'_>,
    dtype: &DataType,
) -> Result<Value, OutOfMemory>
    requires { HasType (kind_of dtype.now) (lent_value value) }
    ensures { IfOk result (λ v. view v ≡ value_data (kind_of dtype.now) (lent_value value.entry)) }
{
    match value {
        ValueRef::Null => Ok(Value::Null),
        ValueRef::Boolean(b) => Ok(Value::Bool(b)),
        ValueRef::Int(i) => integer_value(alloc, i, dtype),
        ValueRef::String(s) => text_value(alloc, s),
        ValueRef::Binary(s) => bytes_value(alloc, s),
        ValueRef::List(values) => match dtype {
            DataType::List(inner) => Ok(Value::Array(list_values(alloc, values, inner)?)),
            _ => unreachable!(),
        },
        ValueRef::Struct(values) => struct_value(alloc, values, dtype),
    }
}

// Values of one type.
#[cycle(cells)]
fn list_values(alloc: Global, values: &Values, dtype: &DataType) -> Result<Vec<Value>, OutOfMemory>
    requires { AreOf (kind_of dtype.now) (items_of values.now) }
    ensures { IfOk result (λ v.
        items_view v.items ≡ items_data (kind_of dtype.now) (items_of values.now)) }
{
    let listed = values.as_slice();
    let mut items = Vec::with_capacity(alloc, listed.len())?;
    for value in listed {
        items.push(cell_value(alloc, value.as_ref(), dtype)?)?;
    }
    Ok(items)
}

#[cycle(cells)]
fn struct_value(alloc: Global, values: &Values, dtype: &DataType) -> Result<Value, OutOfMemory>
    requires { HasType (kind_of dtype.now) (struct (items_of values.now)) }
    ensures { IfOk result (λ v.
        view v ≡ value_data (kind_of dtype.now) (struct (items_of values.now))) }
{
    match dtype {
        DataType::Struct(fields) => Ok(Value::Array(struct_values(alloc, values, fields)?)),
        scalar_type!() | DataType::List(_) => unreachable!(),
    }
}

// One value of each field.
#[cycle(cells)]
fn struct_values(alloc: Global, values: &Values, fields: &Fields) -> Result<Vec<Value>, OutOfMemory>
    requires { AreEachOf (parts_of (parts fields.now)) (items_of values.now) }
    ensures { IfOk result (λ v.
        items_view v.items ≡ fields_data (parts_of (parts fields.now)) (items_of values.now)) }
{
    let listed = values.as_slice();
    let members = fields.as_slice();
    let mut items = Vec::with_capacity(alloc, listed.len())?;
    for i in 0..listed.len() {
        let value = &listed[i];
        let field = &members[i];
        items.push(cell_value(alloc, value.as_ref(), &field.dtype)?)?;
    }
    Ok(items)
}
