//! Types, as texts write them.
ghost use Rattle.std.specs.Prelude.{◌≡◌, IfOk, map, codes};
ghost use Rattle.serde_json.specs.Data.{object, member, no_members, array, string};
ghost use Rattle.serde_json.specs.View.{view, items_view};
ghost use Rattle.tb_value.specs.Promise.Kind as kind;
ghost use Rattle.tb_value.specs.Promise.Kind.{parts_of};
ghost use Rattle.tb_value.specs.SeeKind.{kind_of, part, parts};
ghost use Rattle.tb_json.specs.Promise.Text.{unit_word, zone_data, kind_data, parts_data};

use serde_json::{Value, json};
use std::alloc::Global;
use tb_value::{DataType, Fields, OutOfMemory, PlSmallStr, TimeUnit};

fn unit_word(unit: TimeUnit) -> &'static str
    ensures { result.now ≡ unit_word unit }
{
    match unit {
        TimeUnit::Nanoseconds => "ns",
        TimeUnit::Microseconds => "us",
        TimeUnit::Milliseconds => "ms",
    }
}

fn zone_value(alloc: Global, zone: &Option<PlSmallStr>) -> Result<Value, OutOfMemory>
    ensures { IfOk result (λ v. view v ≡ zone_data zone.now) }
{
    match zone {
        Some(name) => Ok(Value::try_from_str(alloc, name.as_str())?),
        None => Ok(Value::Null),
    }
}

fn datetime_value(
    alloc: Global,
    unit: TimeUnit,
    zone: &Option<PlSmallStr>,
) -> Result<Value, OutOfMemory>
    ensures { IfOk result (λ v. view v ≡ kind_data (kind.datetime unit zone.now)) }
{
    let zone = zone_value(alloc, zone)?;
    Ok(json!(in alloc; {"datetime": unit_word(unit), "zone": zone})?)
}

fn duration_value(alloc: Global, unit: TimeUnit) -> Result<Value, OutOfMemory>
    ensures { IfOk result (λ v. view v ≡ kind_data (kind.duration unit)) }
{
    Ok(json!(in alloc; {"duration": unit_word(unit)})?)
}

fn list_value(alloc: Global, inner: Value) -> Result<Value, OutOfMemory>
    ensures { IfOk result (λ v. view v ≡ object (member (codes "list") (view inner) no_members)) }
{
    Ok(json!(in alloc; {"list": inner})?)
}

fn struct_value(alloc: Global, fields: Vec<Value>) -> Result<Value, OutOfMemory>
    ensures { IfOk result (λ v. view v
        ≡ object (member (codes "struct") (array (items_view fields.items)) no_members)) }
{
    Ok(json!(in alloc; {"struct": fields})?)
}

fn field_value(alloc: Global, name: &PlSmallStr, dtype: Value) -> Result<Value, OutOfMemory>
    ensures { IfOk result (λ v. view v
        ≡ object (member (codes "name") (string name.now) (member (codes "type") (view dtype) no_members))) }
{
    Ok(json!(in alloc; {"name": name.as_str(), "type": dtype})?)
}

fn word_value(alloc: Global, word: &str) -> Result<Value, OutOfMemory>
    ensures { IfOk result (λ v. view v ≡ string word.now) }
{
    Ok(Value::try_from_str(alloc, word)?)
}

/// The type, as a text writes it.
#[cycle(types)]
pub(crate) fn type_value(alloc: Global, dtype: &DataType) -> Result<Value, OutOfMemory>
    ensures { IfOk result (λ v. view v ≡ kind_data (kind_of dtype.now)) }
{
    match dtype {
        DataType::Null => word_value(alloc, "null"),
        DataType::Boolean => word_value(alloc, "bool"),
        DataType::Int8 => word_value(alloc, "i8"),
        DataType::Int16 => word_value(alloc, "i16"),
        DataType::Int32 => word_value(alloc, "i32"),
        DataType::Int64 => word_value(alloc, "i64"),
        DataType::Int128 => word_value(alloc, "i128"),
        DataType::UInt8 => word_value(alloc, "u8"),
        DataType::UInt16 => word_value(alloc, "u16"),
        DataType::UInt32 => word_value(alloc, "u32"),
        DataType::UInt64 => word_value(alloc, "u64"),
        DataType::String => word_value(alloc, "str"),
        DataType::Binary => word_value(alloc, "bin"),
        DataType::Date => word_value(alloc, "date"),
        DataType::Time => word_value(alloc, "time"),
        DataType::Datetime(unit, zone) => datetime_value(alloc, *unit, zone),
        DataType::Duration(unit) => duration_value(alloc, *unit),
        DataType::List(inner) => {
            let inner = type_value(alloc, inner)?;
            list_value(alloc, inner)
        }
        DataType::Struct(fields) => {
            let fields = fields_value(alloc, fields)?;
            struct_value(alloc, fields)
        }
    }
}

// The fields of a struct.
#[cycle(types)]
fn fields_value(alloc: Global, fields: &Fields) -> Result<Vec<Value>, OutOfMemory>
    ensures { IfOk result (λ v. items_view v.items ≡ parts_data (parts_of (parts fields.now))) }
{
    let listed = fields.as_slice();
    let mut values = Vec::with_capacity(alloc, listed.len())?;
    for field in listed {
        let dtype = type_value(alloc, &field.dtype)?;
        values.push(field_value(alloc, &field.name, dtype)?)?;
    }
    Ok(values)
}
