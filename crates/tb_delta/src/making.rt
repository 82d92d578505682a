//! The rows and the columns of tables, taken over.
ghost use Rattle.std.specs.Prelude.{◌≡◌, ◌<◌, ◌∷◌, [], All, IfOk, None, Some, length, map, position};
ghost use Rattle.tb_value.specs.Promise.Names.{same_name};
ghost use Rattle.tb_value.specs.See.{data_of};
ghost use Rattle.tb_value.specs.SeeKind.{part};
ghost use Rattle.tb_chunk.specs.Promise.Col.{Col, values};
ghost use Rattle.tb_frame.specs.Promise.Refusal.{unknown_key};
ghost use Rattle.tb_frame.specs.Promise.Table.{row_at, schema_of, table_of};

use std::alloc::Global;
use tb_frame::DataFrame;
use tb_store::Column;
use tb_value::{AnyValue, Field, OutOfMemory, PlSmallStr};

/// The fields of a row.
pub(crate) fn row_at(
    alloc: Global,
    columns: &[Column],
    row: usize,
) -> Result<Vec<AnyValue>, OutOfMemory>
    requires { All (λ (c : Col). row < length (values c)) columns.now }
    ensures { IfOk result (λ v. data_of v.items ≡ row_at (table_of columns.now) row) }
{
    let mut fields = Vec::with_capacity(alloc, columns.len())?;
    for column in columns {
        fields.push(column.get(row).to_value(alloc)?)?;
    }
    Ok(fields)
}

/// The names and types of the columns.
pub(crate) fn fields_of(alloc: Global, columns: &[Column]) -> Result<Vec<Field>, OutOfMemory>
    ensures { IfOk result (λ v. map part v.items ≡ schema_of (table_of columns.now)) }
{
    let mut fields = Vec::with_capacity(alloc, columns.len())?;
    for column in columns {
        let name = column.name().copy(alloc)?;
        let dtype = column.dtype().copy(alloc)?;
        fields.push(Field { name, dtype })?;
    }
    Ok(fields)
}

/// The place of a column that the table has.
pub(crate) fn place_of(frame: &DataFrame, name: &PlSmallStr) -> usize
    requires { unknown_key (table_of frame.now) (name.now ∷ []) ≡ None }
    ensures { position (λ (c : Col). same_name c.name name.now) frame.now ≡ Some result }
{
    match frame.position(name.as_str()) {
        Some(place) => place,
        None => unreachable!(),
    }
}
