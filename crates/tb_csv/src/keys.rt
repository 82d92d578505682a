//! The types of the keys of a text that is joined with another.
ghost use Rattle.std.specs.Prelude.{◌≡◌, List, IfOk, option_map, option_to_list, position};
ghost use Rattle.std.specs.List.{list_all};
ghost use Rattle.tb_value.specs.Promise.Names.{same_name};
ghost use Rattle.tb_csv.specs.Promise.Keys.{fields_named, key_type, told_of, types_with_keys};
ghost use Rattle.tb_csv.specs.Promise.Records.{Record};
ghost use Rattle.tb_csv.specs.Promise.Types.{given_type, is_of, told_type};
ghost use Rattle.tb_csv.specs.Fields.{fields_in};
ghost use Rattle.tb_csv.specs.Read.{IsLevel, IsRead};
ghost use Rattle.std.specs.Prelude.{◌++◌};

use crate::cells::are_of;
use crate::columns::{given_type, told_type};
use crate::field_type::FieldType;
use crate::lent::Fields;
use crate::options::TypeOf;
use crate::records::Records;
use std::alloc::Global;
use tb_value::{OutOfMemory, PlSmallStr};

// The type that the fields of two columns tell together.
fn told_together(fields: Fields, others: Fields) -> FieldType
    ensures { result ≡ told_type (fields_in fields.entry ++ fields_in others.entry) }
{
    if are_both(FieldType::Int64, fields, others) {
        FieldType::Int64
    } else if are_both(FieldType::Boolean, fields, others) {
        FieldType::Boolean
    } else if are_both(FieldType::Date, fields, others) {
        FieldType::Date
    } else {
        FieldType::String
    }
}

// Whether the fields of both columns are values of this type, or have no byte.
fn are_both(field_type: FieldType, fields: Fields, others: Fields) -> bool
    ensures { result
        ≡ list_all (is_of field_type) (fields_in fields.entry ++ fields_in others.entry) }
{
    are_of(field_type, fields) && are_of(field_type, others)
}

// The type of a key, by the types that are given for it and for the other text's key, and by the fields of both.
fn key_type(
    given: Option<FieldType>,
    beside: Option<FieldType>,
    fields: Fields,
    others: Fields,
) -> FieldType
    ensures { result ≡ key_type given beside (fields_in fields.entry) (fields_in others.entry) }
{
    match given {
        Some(field_type) => field_type,
        None => match beside {
            Some(field_type) if are_of(field_type, fields) => field_type,
            Some(_) => told_type(fields),
            None => told_together(fields, others),
        },
    }
}

fn place_of(names: &[PlSmallStr], name: &PlSmallStr) -> Option<usize>
    ensures { result ≡ position (λ n. same_name n name.now) names.now }
{
    names.iter().position(|other| *other == *name)
}

// The fields of the column of this name, if there is one.
fn fields_named<'a>(records: &'a Records, name: &PlSmallStr) -> Option<Fields<'a>>
    requires level { IsLevel records.now }
    ensures fields { (rs : List Record) → IsRead records.now rs
        → option_map fields_in result ≡ fields_named rs name.now }
{
    match place_of(&records.names, name) {
        Some(place) => Some(records.column(place)),
        None => None,
    }
}

// The type of a key of this text beside a key of the other, if both are columns.
fn told_key(
    alloc: Global,
    records: &Records,
    others: &Records,
    types: &[TypeOf],
    name: &PlSmallStr,
    other: &PlSmallStr,
) -> Result<Option<TypeOf>, OutOfMemory>
    requires level { IsLevel records.now }
    requires others_level { IsLevel others.now }
    ensures told { (rs os : List Record) → IsRead records.now rs → IsRead others.now os
        → IfOk result (λ told. option_to_list told ≡ told_of types.now name.now other.now (fields_named rs name.now) (fields_named os other.now)) }
{
    let Some(fields) = fields_named(records, name) else {
        return Ok(None);
    };
    let Some(beside) = fields_named(others, other) else {
        return Ok(None);
    };
    let field_type = key_type(
        given_type(types, name),
        given_type(types, other),
        fields,
        beside,
    );
    let name = name.copy(alloc)?;
    Ok(Some(TypeOf { name, field_type }))
}

fn copied(alloc: Global, types: &[TypeOf]) -> Result<Vec<TypeOf>, OutOfMemory>
    ensures { IfOk result (λ v. v.items ≡ types.now) }
{
    let mut copies = Vec::with_capacity(alloc, types.len())?;
    for given in types {
        copies.push(TypeOf {
            name: given.name.copy(alloc)?,
            field_type: given.field_type,
        })?;
    }
    Ok(copies)
}

/// The types of the columns of a text that is joined with another by keys: those that are given, and those of its keys. A key has
/// the type that is given for its name. Where there is none, it has the one that is given for the key beside it, if all its fields
/// are of it; and where neither is given, the one that the fields of both tell together. So a key that is a number in one
/// text and not in the other is a text in both, and a key without a value is of the other's type. Of a key that stands twice the
/// first counts.
///
/// # Errors
///
/// `OutOfMemory` where memory is wanting.
pub fn types_with_keys(
    alloc: Global,
    records: &Records,
    others: &Records,
    types: &[TypeOf],
    on: &[PlSmallStr],
    others_on: &[PlSmallStr],
) -> Result<Vec<TypeOf>, OutOfMemory>
    requires level { IsLevel records.now }
    requires others_level { IsLevel others.now }
    ensures types { (rs os : List Record) → IsRead records.now rs → IsRead others.now os
        → IfOk result (λ v. v.items ≡ types_with_keys types.now rs os on.now others_on.now) }
{
    let mut told = copied(alloc, types)?;
    for i in 0..on.len().min(others_on.len()) {
        let of_key = told_key(alloc, records, others, types, &on[i], &others_on[i])?;
        match of_key {
            Some(typed) => told.push(typed)?,
            None => {}
        }
    }
    Ok(told)
}
