//! Values as typed columns store them, read from JSON.
ghost use Rattle.std.specs.Prelude.{◌≡◌, ◌≢◌, option_map, option_and_then, IfOk, IfSome};
ghost use Rattle.serde_json.specs.Data.{null};
ghost use Rattle.serde_json.specs.Find.{as_number, as_integer};
ghost use Rattle.tb_tree.specs.View.{item_view};
ghost use Rattle.tb_value.specs.Promise.Datum.{list, struct, items_of};
ghost use Rattle.tb_value.specs.Promise.Kind as kind;
ghost use Rattle.tb_value.specs.Promise.Kind.{Kind, parts_of};
ghost use Rattle.tb_value.specs.SeeKind.{kind_of, parts};
ghost use Rattle.tb_value.specs.Promise.Typed.{HasType, AreOf, AreEachOf};
ghost use Rattle.tb_chunk.specs.Col.{physical};
ghost use Rattle.tb_json.specs.Promise.Cells.{cell_in};

use crate::read_any_cells::{each_value, row_of};
use crate::scalar::scalar_type;
use std::alloc::Global;
use tb_label::whole_in;
use tb_store::{Cell, FieldValues};
use tb_tree::Item;
use tb_value::{AnyValue, DataType, Fields, OutOfMemory, Values};

/// A value as a typed column stores it, read from JSON. `stored` is the type that it is stored as.
pub(crate) trait ReadCell: Cell {
    ghost stored: { Kind };

    /// The value, which is not Null, or None where it is none of the type.
    fn read(alloc: Global, dtype: &DataType, value: Item<'_>) -> Result<Option<Self>, OutOfMemory>
        requires stored { physical (kind_of dtype.now) ≡ stored }
        requires present { item_view value ≢ null }
        ensures value { IfOk result (λ o.
            option_map Self.shows o ≡ cell_in (kind_of dtype.now) (item_view value.entry)) }
        ensures typed { IfOk result (λ o. IfSome o (λ c. HasType (kind_of dtype.now) (Self.shows c))) };
}

impl ReadCell for bool {
    ghost stored = { kind.boolean };

    fn read(alloc: Global, dtype: &DataType, value: Item<'_>) -> Result<Option<bool>, OutOfMemory> {
        Ok(value.as_bool())
    }
}

impl ReadCell for i8 {
    ghost stored = { kind.int8 };

    fn read(alloc: Global, dtype: &DataType, value: Item<'_>) -> Result<Option<i8>, OutOfMemory> {
        Ok(value.as_i128().and_then(|whole| i8::try_from(whole).ok()))
    }
}

impl ReadCell for i16 {
    ghost stored = { kind.int16 };

    fn read(alloc: Global, dtype: &DataType, value: Item<'_>) -> Result<Option<i16>, OutOfMemory> {
        Ok(value.as_i128().and_then(|whole| i16::try_from(whole).ok()))
    }
}

impl ReadCell for i32 {
    ghost stored = { kind.int32 };

    fn read(alloc: Global, dtype: &DataType, value: Item<'_>) -> Result<Option<i32>, OutOfMemory> {
        Ok(value.as_i128().and_then(|whole| i32::try_from(whole).ok()))
    }
}

impl ReadCell for i64 {
    ghost stored = { kind.int64 };

    fn read(alloc: Global, dtype: &DataType, value: Item<'_>) -> Result<Option<i64>, OutOfMemory> {
        Ok(value.as_i128().and_then(|whole| i64::try_from(whole).ok()))
    }
}

impl ReadCell for u8 {
    ghost stored = { kind.uint8 };

    fn read(alloc: Global, dtype: &DataType, value: Item<'_>) -> Result<Option<u8>, OutOfMemory> {
        Ok(value.as_i128().and_then(|whole| u8::try_from(whole).ok()))
    }
}

impl ReadCell for u16 {
    ghost stored = { kind.uint16 };

    fn read(alloc: Global, dtype: &DataType, value: Item<'_>) -> Result<Option<u16>, OutOfMemory> {
        Ok(value.as_i128().and_then(|whole| u16::try_from(whole).ok()))
    }
}

impl ReadCell for u32 {
    ghost stored = { kind.uint32 };

    fn read(alloc: Global, dtype: &DataType, value: Item<'_>) -> Result<Option<u32>, OutOfMemory> {
        Ok(value.as_i128().and_then(|whole| u32::try_from(whole).ok()))
    }
}

impl ReadCell for u64 {
    ghost stored = { kind.uint64 };

    fn read(alloc: Global, dtype: &DataType, value: Item<'_>) -> Result<Option<u64>, OutOfMemory> {
        Ok(value.as_i128().and_then(|whole| u64::try_from(whole).ok()))
    }
}

impl ReadCell for i128 {
    ghost stored = { kind.int128 };

    fn read(alloc: Global, dtype: &DataType, value: Item<'_>) -> Result<Option<i128>, OutOfMemory> {
        Ok(value.as_str().and_then(|text| whole_in(text)))
    }
}

fn list_of(alloc: Global, value: Item<'_>, inner: &DataType) -> Result<Option<Values>, OutOfMemory>
    requires { item_view value ≢ null }
    ensures value { IfOk result (λ o. option_map (λ vs. list (items_of vs)) o
        ≡ cell_in (kind.list (kind_of inner.now)) (item_view value.entry)) }
    ensures typed { IfOk result (λ o. IfSome o (λ vs. AreOf (kind_of inner.now) (items_of vs))) }
{
    let Some(items) = value.as_array() else {
        return Ok(None);
    };
    match each_value(alloc, items, inner)? {
        Some(values) => Ok(Some(Values::from_vec(values))),
        None => Ok(None),
    }
}

fn struct_of(
    alloc: Global,
    value: Item<'_>,
    fields: &Fields,
) -> Result<Option<FieldValues>, OutOfMemory>
    requires { item_view value ≢ null }
    ensures value { IfOk result (λ o. option_map (λ s. struct (items_of s.values)) o
        ≡ cell_in (kind.struct (parts_of (parts fields.now))) (item_view value.entry)) }
    ensures typed { IfOk result (λ o. IfSome o
        (λ s. AreEachOf (parts_of (parts fields.now)) (items_of s.values))) }
{
    let Some(items) = value.as_array() else {
        return Ok(None);
    };
    match row_of(alloc, items, fields)? {
        Some(values) => {
            let row = AnyValue::Struct(Values::from_vec(values));
            Ok(Some(FieldValues::from_value(alloc, &row)?))
        }
        None => Ok(None),
    }
}

impl ReadCell for Values {
    ghost stored = { kind.list kind.null };

    fn read(
        alloc: Global,
        dtype: &DataType,
        value: Item<'_>,
    ) -> Result<Option<Values>, OutOfMemory> {
        match dtype {
            DataType::List(inner) => list_of(alloc, value, inner),
            scalar_type!() | DataType::Struct(_) => unreachable!(),
        }
    }
}

impl ReadCell for FieldValues {
    ghost stored = { kind.struct kind.end };

    fn read(
        alloc: Global,
        dtype: &DataType,
        value: Item<'_>,
    ) -> Result<Option<FieldValues>, OutOfMemory> {
        match dtype {
            DataType::Struct(fields) => struct_of(alloc, value, fields),
            scalar_type!() | DataType::List(_) => unreachable!(),
        }
    }
}
