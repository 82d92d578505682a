//! Values of any type, read from JSON.
ghost use Rattle.std.specs.Prelude.{◌≡◌, option_map, IfOk, IfSome};
ghost use Rattle.serde_json.specs.Data.{array};
ghost use Rattle.serde_json.specs.View.{items_of as array_items};
ghost use Rattle.tb_tree.specs.View.{view, item_view, listed};
ghost use Rattle.tb_value.specs.Promise.Datum.{items_of};
ghost use Rattle.tb_value.specs.Promise.Kind.{parts_of};
ghost use Rattle.tb_value.specs.See.{datum, data_of};
ghost use Rattle.tb_value.specs.SeeKind.{kind_of, parts};
ghost use Rattle.tb_value.specs.Promise.Typed.{HasType, AreOf, AreEachOf};
ghost use Rattle.tb_json.specs.Promise.Cells.{cell_in, items_in, row_in};

use crate::read_plain_cells::{boolean_of, number_of, text_of, whole_of};
use crate::scalar::scalar_type;
use std::alloc::Global;
use tb_tree::{Item, Items, Value};
use tb_value::{AnyValue, DataType, Fields, OutOfMemory, Values};

/// The value that a JSON value stands for, or None where it is none of the type.
#[cycle(any_cells)]
pub fn value_of(
    alloc: Global,
    value: &Value,
    dtype: &DataType,
) -> Result<Option<AnyValue>, OutOfMemory>
    ensures value { IfOk result (λ o.
        option_map datum o ≡ cell_in (kind_of dtype.now) (view value.now)) }
    ensures typed { IfOk result (λ o. IfSome o (λ v. HasType (kind_of dtype.now) (datum v))) }
{
    if value.is_null() {
        return Ok(Some(AnyValue::Null));
    }
    if let Some(b) = value.as_bool() {
        return Ok(boolean_of(b, dtype));
    }
    if let Some(text) = value.as_str() {
        return text_of(alloc, text, dtype);
    }
    match value.as_array() {
        Some(items) => array_of(alloc, items, dtype),
        None => Ok(number_of(value, dtype)),
    }
}

/// The same of a value of an array.
#[cycle(any_cells)]
pub fn item_of(
    alloc: Global,
    item: Item<'_>,
    dtype: &DataType,
) -> Result<Option<AnyValue>, OutOfMemory>
    ensures value { IfOk result (λ o.
        option_map datum o ≡ cell_in (kind_of dtype.now) (item_view item.entry)) }
    ensures typed { IfOk result (λ o. IfSome o (λ v. HasType (kind_of dtype.now) (datum v))) }
{
    match item {
        Item::Whole(number) => Ok(whole_of(number, dtype)),
        Item::Lent(value) => value_of(alloc, value, dtype),
    }
}

// The value that an array stands for.
#[cycle(any_cells)]
fn array_of(
    alloc: Global,
    items: Items<'_>,
    dtype: &DataType,
) -> Result<Option<AnyValue>, OutOfMemory>
    ensures value { IfOk result (λ o. option_map datum o
        ≡ cell_in (kind_of dtype.now) (array (array_items (listed items.entry)))) }
    ensures typed { IfOk result (λ o. IfSome o (λ v. HasType (kind_of dtype.now) (datum v))) }
{
    match dtype {
        DataType::List(inner) => match each_value(alloc, items, inner)? {
            Some(values) => Ok(Some(AnyValue::List(Values::from_vec(values)))),
            None => Ok(None),
        },
        DataType::Struct(fields) => match row_of(alloc, items, fields)? {
            Some(values) => Ok(Some(AnyValue::Struct(Values::from_vec(values)))),
            None => Ok(None),
        },
        scalar_type!() => Ok(None),
    }
}

/// Values of one type.
#[cycle(any_cells)]
pub(crate) fn each_value(
    alloc: Global,
    items: Items<'_>,
    dtype: &DataType,
) -> Result<Option<Vec<AnyValue>>, OutOfMemory>
    ensures value { IfOk result (λ o. option_map (λ v. items_of (data_of v.items)) o
        ≡ items_in (kind_of dtype.now) (array_items (listed items.entry))) }
    ensures typed { IfOk result (λ o. IfSome o
        (λ v. AreOf (kind_of dtype.now) (items_of (data_of v.items)))) }
{
    let len = items.len();
    let mut values = Vec::with_capacity(alloc, len)?;
    for i in 0..len {
        let Some(value) = item_of(alloc, items.at(i), dtype)? else {
            return Ok(None);
        };
        values.push(value)?;
    }
    Ok(Some(values))
}

/// One value for each field.
#[cycle(any_cells)]
pub(crate) fn row_of(
    alloc: Global,
    items: Items<'_>,
    fields: &Fields,
) -> Result<Option<Vec<AnyValue>>, OutOfMemory>
    ensures value { IfOk result (λ o. option_map (λ v. items_of (data_of v.items)) o
        ≡ row_in (parts_of (parts fields.now)) (array_items (listed items.entry))) }
    ensures typed { IfOk result (λ o. IfSome o
        (λ v. AreEachOf (parts_of (parts fields.now)) (items_of (data_of v.items)))) }
{
    let members = fields.as_slice();
    let len = items.len();
    if len != members.len() {
        return Ok(None);
    }
    let mut values = Vec::with_capacity(alloc, len)?;
    for i in 0..len {
        let field = &members[i];
        let Some(value) = item_of(alloc, items.at(i), &field.dtype)? else {
            return Ok(None);
        };
        values.push(value)?;
    }
    Ok(Some(values))
}
