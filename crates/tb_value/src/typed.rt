//! Which values are of a type.
ghost use Rattle.std.specs.Prelude.{◌≡◌, ◌↔◌, ◌<◌, ◌≤ℤ◌, ◌^◌, IsTrue, IsSomeAnd, length, map};
ghost use Rattle.tb_value.specs.Promise.Datum.{items_of};
ghost use Rattle.tb_value.specs.Promise.Kind.{boolean, string, binary};
ghost use Rattle.std.specs.Str.{IsUtf8};
ghost use Rattle.tb_value.specs.Promise.SameKind.{is_key};
ghost use Rattle.tb_value.specs.See.{datum, data_of, lent_value};
ghost use Rattle.tb_value.specs.SeeKind.{kind_of, part};
ghost use Rattle.tb_value.specs.Promise.Typed.{HasType, AreOf, AreEachOf, FitsFields, IsBytes, IsListOf, IsStructOf, ends, is_whole_physical};

use crate::any_value::{AnyValue, ValueRef, Values};
use crate::dtype::{DataType, Field, plain_type};
use crate::limits::TOO_LONG;

impl DataType {
    /// Whether the value is of this type.
    pub fn is_of(&self, value: &AnyValue) -> bool
        ensures { IsTrue result ↔ HasType (kind_of self.now) (datum value.now) }
    {
        is_of(self, value)
    }

    /// Whether the value that is lent is of this type.
    pub fn is_of_ref(&self, value: ValueRef<'_>) -> bool
        ensures { IsTrue result ↔ HasType (kind_of self.now) (lent_value value.entry) }
    {
        match value {
            ValueRef::Null => true,
            ValueRef::Boolean(_) => is_boolean(self),
            ValueRef::Int(i) => is_int_of(self, i),
            ValueRef::String(s) => is_string(self) && s.len() < TOO_LONG && is_text(s),
            ValueRef::Binary(s) => is_binary_of(self, s),
            ValueRef::List(values) => is_list_of(self, values),
            ValueRef::Struct(values) => is_struct_of(self, values),
        }
    }
}

impl DataType {
    /// Whether rows can be joined by values of this type: of each type but Null, List and Struct.
    pub fn is_key(&self) -> bool
        ensures { result ≡ is_key (kind_of self.now) }
    {
        match self {
            DataType::Null | DataType::List(_) | DataType::Struct(_) => false,
            DataType::Boolean
            | DataType::Int8
            | DataType::Int16
            | DataType::Int32
            | DataType::Int64
            | DataType::Int128
            | DataType::UInt8
            | DataType::UInt16
            | DataType::UInt32
            | DataType::UInt64
            | DataType::String
            | DataType::Binary
            | DataType::Date
            | DataType::Datetime(_, _)
            | DataType::Duration(_)
            | DataType::Time => true,
        }
    }

    /// Whether values of this type are stored as whole numbers: of the nine types of whole numbers,
    /// Date, Datetime, Duration and Time.
    pub fn is_whole_physical(&self) -> bool
        ensures { result ≡ is_whole_physical (kind_of self.now) }
    {
        ends_of(self).is_some()
    }
}

// The least and the greatest number of the type.
fn ends_of(dtype: &DataType) -> Option<(i128, i128)>
    ensures { result ≡ ends (kind_of dtype.now) }
{
    match dtype {
        DataType::Int8 => Some((-128, 127)),
        DataType::Int16 => Some((-32_768, 32_767)),
        DataType::Int32 | DataType::Date => Some((-2_147_483_648, 2_147_483_647)),
        DataType::Int64 | DataType::Datetime(_, _) | DataType::Duration(_) | DataType::Time => {
            Some((-9_223_372_036_854_775_808, 9_223_372_036_854_775_807))
        }
        DataType::Int128 => Some((i128::MIN, i128::MAX)),
        DataType::UInt8 => Some((0, 255)),
        DataType::UInt16 => Some((0, 65_535)),
        DataType::UInt32 => Some((0, 4_294_967_295)),
        DataType::UInt64 => Some((0, 18_446_744_073_709_551_615)),
        DataType::Null
        | DataType::Boolean
        | DataType::String
        | DataType::Binary
        | DataType::List(_)
        | DataType::Struct(_) => None,
    }
}

fn is_int_of(dtype: &DataType, i: i128) -> bool
    ensures { IsTrue result ↔ IsSomeAnd (ends (kind_of dtype.now)) (λ e. (e.0 ≤ℤ i) × (i ≤ℤ e.1)) }
{
    match ends_of(dtype) {
        Some((low, high)) => low <= i && i <= high,
        None => false,
    }
}

fn is_boolean(dtype: &DataType) -> bool
    ensures { IsTrue result ↔ (kind_of dtype.now ≡ boolean) }
{
    match dtype {
        DataType::Boolean => true,
        _ => false,
    }
}

fn is_string(dtype: &DataType) -> bool
    ensures { IsTrue result ↔ (kind_of dtype.now ≡ string) }
{
    match dtype {
        DataType::String => true,
        _ => false,
    }
}

// Whether the bytes are UTF-8.
fn is_text(bytes: &[u8]) -> bool
    ensures { IsTrue result ↔ IsUtf8 bytes.now }
{
    str::from_utf8(bytes).is_ok()
}

fn is_binary_of(dtype: &DataType, bytes: &[u8]) -> bool
    ensures { IsTrue result ↔
        ((kind_of dtype.now ≡ binary) × (length bytes.now < 2 ^ 32) × IsBytes bytes.now) }
{
    match dtype {
        DataType::Binary => bytes.len() < TOO_LONG,
        _ => false,
    }
}

#[cycle(is_of)]
fn is_of(dtype: &DataType, value: &AnyValue) -> bool
    ensures { IsTrue result ↔ HasType (kind_of dtype.now) (datum value.now) }
{
    match value {
        AnyValue::Null => true,
        AnyValue::Boolean(_) => is_boolean(dtype),
        AnyValue::Int(i) => is_int_of(dtype, *i),
        AnyValue::String(s) => is_string(dtype) && s.as_str().len() < TOO_LONG,
        AnyValue::Binary(s) => is_binary_of(dtype, s.as_slice()),
        AnyValue::List(vs) => is_list_of(dtype, vs),
        AnyValue::Struct(vs) => is_struct_of(dtype, vs),
    }
}

#[cycle(is_of)]
fn is_list_of(dtype: &DataType, values: &Values) -> bool
    ensures { IsTrue result ↔ IsListOf (kind_of dtype.now) (λ t. AreOf t (items_of values.now)) }
{
    match dtype {
        DataType::List(inner) => are_of(inner, values),
        plain_type!() | DataType::Datetime(_, _) | DataType::Duration(_) | DataType::Struct(_) =>
            false,
    }
}

#[cycle(is_of)]
fn is_struct_of(dtype: &DataType, values: &Values) -> bool
    ensures { IsTrue result ↔ IsStructOf (kind_of dtype.now) (λ ps.
        AreEachOf ps (items_of values.now)) }
{
    match dtype {
        DataType::Struct(fields) => fits_fields(fields.as_slice(), values.as_slice()),
        plain_type!() | DataType::Datetime(_, _) | DataType::Duration(_) | DataType::List(_) =>
            false,
    }
}

#[cycle(is_of)]
fn are_of(dtype: &DataType, values: &Values) -> bool
    ensures { IsTrue result ↔ AreOf (kind_of dtype.now) (items_of values.now) }
{
    for value in values.as_slice() {
        if !is_of(dtype, value) {
            return false;
        }
    }
    true
}

/// Whether a row of values fits fields: there are as many values as fields, and each is of the type of its field. Null
/// is of every type.
#[cycle(is_of)]
pub fn fits_fields(fields: &[Field], values: &[AnyValue]) -> bool
    ensures { IsTrue result ↔ FitsFields (map part fields.now) (data_of values.now) }
{
    if fields.len() != values.len() {
        return false;
    }
    for (i, field) in fields.iter().enumerate() {
        if !is_of(&field.dtype, &values[i]) {
            return false;
        }
    }
    true
}
