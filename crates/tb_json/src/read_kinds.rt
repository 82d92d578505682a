//! Types, read from JSON.
ghost use Rattle.std.specs.Prelude.{◌≡◌, map, option_map, option_and_then, IfOk};
ghost use Rattle.serde_json.specs.Data.{member, no_members};
ghost use Rattle.serde_json.specs.Find.{as_str};
ghost use Rattle.serde_json.specs.View.{items_of};
ghost use Rattle.tb_tree.specs.View.{view, item_view, listed, members_view};
ghost use Rattle.tb_value.specs.Promise.Kind.{list, struct, parts_of};
ghost use Rattle.tb_value.specs.SeeKind.{kind_of, part, parts};
ghost use Rattle.tb_json.specs.Promise.Kinds.{number_kind, word_kind, unit_named, zone_in, datetime_in, duration_in, field_named, kind_in, members_kind, parts_in, each_part, part_in, members_part};

use std::alloc::Global;
use tb_tree::{Item, Items, Map, Value};
use tb_value::{DataType, Field, Fields, OutOfMemory, PlSmallStr, TimeUnit};

fn number_type(word: &str) -> Option<DataType>
    ensures { option_map kind_of result ≡ number_kind word.now }
{
    match word {
        "i8" => Some(DataType::Int8),
        "i16" => Some(DataType::Int16),
        "i32" => Some(DataType::Int32),
        "i64" => Some(DataType::Int64),
        "i128" => Some(DataType::Int128),
        "u8" => Some(DataType::UInt8),
        "u16" => Some(DataType::UInt16),
        "u32" => Some(DataType::UInt32),
        "u64" => Some(DataType::UInt64),
        _ => None,
    }
}

fn word_type(word: &str) -> Option<DataType>
    ensures { option_map kind_of result ≡ word_kind word.now }
{
    match word {
        "null" => Some(DataType::Null),
        "bool" => Some(DataType::Boolean),
        "str" => Some(DataType::String),
        "bin" => Some(DataType::Binary),
        "date" => Some(DataType::Date),
        "time" => Some(DataType::Time),
        _ => number_type(word),
    }
}

fn unit_named(word: &str) -> Option<TimeUnit>
    ensures { result ≡ unit_named word.now }
{
    match word {
        "ns" => Some(TimeUnit::Nanoseconds),
        "us" => Some(TimeUnit::Microseconds),
        "ms" => Some(TimeUnit::Milliseconds),
        _ => None,
    }
}

fn named_type(name: &Value) -> Option<DataType>
    ensures { option_map kind_of result ≡ option_and_then word_kind (as_str (view name.now)) }
{
    word_type(name.as_str()?)
}

fn zone_of(alloc: Global, value: &Value) -> Result<Option<Option<PlSmallStr>>, OutOfMemory>
    ensures { IfOk result (λ o. o ≡ zone_in (view value.now)) }
{
    if value.is_null() {
        return Ok(Some(None));
    }
    match value.as_str() {
        Some(name) => Ok(Some(Some(PlSmallStr::from_str(alloc, name)?))),
        None => Ok(None),
    }
}

fn unit_of(value: &Value) -> Option<TimeUnit>
    ensures { result ≡ option_and_then unit_named (as_str (view value.now)) }
{
    unit_named(value.as_str()?)
}

fn datetime_of(alloc: Global, unit: &Value, zone: &Value) -> Result<Option<DataType>, OutOfMemory>
    ensures { IfOk result (λ o.
        option_map kind_of o ≡ datetime_in (view unit.now) (view zone.now)) }
{
    let Some(unit) = unit_of(unit) else {
        return Ok(None);
    };
    let Some(zone) = zone_of(alloc, zone)? else {
        return Ok(None);
    };
    Ok(Some(DataType::Datetime(unit, zone)))
}

// An object of these two members.
fn pair_type(
    alloc: Global,
    first: &str,
    unit: &Value,
    second: &str,
    zone: &Value,
) -> Result<Option<DataType>, OutOfMemory>
    ensures { IfOk result (λ o. option_map kind_of o
        ≡ members_kind (member first.now (view unit.now) (member second.now (view zone.now) no_members))) }
{
    if first == "datetime" && second == "zone" {
        datetime_of(alloc, unit, zone)
    } else {
        Ok(None)
    }
}

fn duration_of(unit: &Value) -> Option<DataType>
    ensures { option_map kind_of result ≡ duration_in (view unit.now) }
{
    match unit_of(unit) {
        Some(unit) => Some(DataType::Duration(unit)),
        None => None,
    }
}

fn list_type(alloc: Global, inner: Option<DataType>) -> Result<Option<DataType>, OutOfMemory>
    ensures { IfOk result (λ o. option_map kind_of o ≡ option_map list (option_map kind_of inner)) }
{
    match inner {
        Some(inner) => Ok(Some(DataType::List(Box::new(alloc, inner)?))),
        None => Ok(None),
    }
}

fn struct_type(fields: Option<Vec<Field>>) -> Option<DataType>
    ensures { option_map kind_of result
        ≡ option_map struct (option_map (λ v. parts_of (map part v.items)) fields) }
{
    match fields {
        Some(fields) => Some(DataType::Struct(Fields::from_vec(fields))),
        None => None,
    }
}

/// The type that a value stands for, or None where it stands for none.
#[cycle(kinds)]
pub fn type_of(alloc: Global, value: &Value) -> Result<Option<DataType>, OutOfMemory>
    ensures { IfOk result (λ o. option_map kind_of o ≡ kind_in (view value.now)) }
{
    match value {
        Value::Short(_) | Value::Long(_) => Ok(named_type(value)),
        Value::Object(members) => members_type(alloc, members),
        _ => Ok(None),
    }
}

// An object of one member, or of two.
#[cycle(kinds)]
fn members_type(
    alloc: Global,
    members: &Map<String, Value>,
) -> Result<Option<DataType>, OutOfMemory>
    ensures { IfOk result (λ o.
        option_map kind_of o ≡ members_kind (members_view members.now.entries)) }
{
    let mut iter = members.iter();
    let Some((name, value)) = iter.next() else {
        return Ok(None);
    };
    let Some((second, zone)) = iter.next() else {
        return match name.as_str() {
            "list" => list_type(alloc, type_of(alloc, value)?),
            "struct" => Ok(struct_type(fields_of(alloc, value)?)),
            "duration" => Ok(duration_of(value)),
            _ => Ok(None),
        };
    };
    if iter.next().is_some() {
        return Ok(None);
    }
    pair_type(alloc, name.as_str(), value, second.as_str(), zone)
}

#[cycle(kinds)]
fn fields_of(alloc: Global, value: &Value) -> Result<Option<Vec<Field>>, OutOfMemory>
    ensures { IfOk result (λ o.
        option_map (λ v. parts_of (map part v.items)) o ≡ parts_in (view value.now)) }
{
    match value.as_array() {
        Some(items) => each_field(alloc, items),
        None => Ok(None),
    }
}

#[cycle(kinds)]
fn each_field(alloc: Global, items: Items<'_>) -> Result<Option<Vec<Field>>, OutOfMemory>
    ensures { IfOk result (λ o. option_map (λ v. parts_of (map part v.items)) o
        ≡ each_part (items_of (listed items.entry))) }
{
    let mut fields = Vec::new(alloc);
    for i in 0..items.len() {
        let Some(field) = field_of(alloc, items.at(i))? else {
            return Ok(None);
        };
        fields.push(field)?;
    }
    Ok(Some(fields))
}

#[cycle(kinds)]
fn field_of(alloc: Global, item: Item<'_>) -> Result<Option<Field>, OutOfMemory>
    ensures { IfOk result (λ o. option_map part o ≡ part_in (item_view item.entry)) }
{
    match item.as_object() {
        Some(members) => members_field(alloc, members),
        None => Ok(None),
    }
}

#[cycle(kinds)]
fn members_field(alloc: Global, members: &Map<String, Value>) -> Result<Option<Field>, OutOfMemory>
    ensures { IfOk result (λ o.
        option_map part o ≡ members_part (members_view members.now.entries)) }
{
    let mut iter = members.iter();
    let Some((first, name)) = iter.next() else {
        return Ok(None);
    };
    let Some((second, value)) = iter.next() else {
        return Ok(None);
    };
    if iter.next().is_some() || first.as_str() != "name" || second.as_str() != "type" {
        return Ok(None);
    }
    let dtype = type_of(alloc, value)?;
    named(alloc, dtype, name)
}

fn named(alloc: Global, dtype: Option<DataType>, name: &Value) -> Result<Option<Field>, OutOfMemory>
    ensures { IfOk result (λ o.
        option_map part o ≡ field_named (option_map kind_of dtype) (view name.now)) }
{
    let Some(dtype) = dtype else {
        return Ok(None);
    };
    match name.as_str() {
        Some(name) => {
            let name = PlSmallStr::from_str(alloc, name)?;
            Ok(Some(Field { name, dtype }))
        }
        None => Ok(None),
    }
}
