//! The tables of the rows that there are.
ghost use Rattle.std.specs.Prelude.{◌≡◌, ◌<◌, ◌≤◌, ◌∷◌, [], All, IfOk, None, length, map, slice_index_or};
ghost use Rattle.std.specs.BTreeMap.{values};
ghost use Rattle.std.specs.Vec.{vec_len};
ghost use Rattle.tb_value.specs.Promise.Datum.{null};
ghost use Rattle.tb_value.specs.Promise.Typed.{HasType};
ghost use Rattle.tb_value.specs.Refusals.{Settles};
ghost use Rattle.tb_value.specs.See.{data_of};
ghost use Rattle.tb_value.specs.SeeKind.{kind_of, part};
ghost use Rattle.tb_value.specs.declared.limits.TheConstants.{MAX_ROWS};
ghost use Rattle.tb_chunk.specs.Made.{lists_of};
ghost use Rattle.tb_frame.specs.Promise.Table.{plain_column, table_of};
ghost use Rattle.tb_delta.specs.Inside.{AreRows, IsPlaced, side_state};
ghost use Rattle.tb_delta.specs.Promise.Now.{column_now, table_now};
ghost use Rattle.tb_delta.specs.declared.side_rows.StoredRow.{StoredRow};

use crate::side_rows::{SideRows, StoredRow};
use std::alloc::Global;
use std::collections::BTreeMap;
use tb_frame::DataFrame;
use tb_store::Column;
use tb_value::{AnyValue, Field, OutOfMemory, PolarsResult, only_memory};

// The fields at a place, by the ids of their rows.
fn fields_at(
    alloc: Global,
    rows: &BTreeMap<u32, StoredRow>,
    place: usize,
) -> Result<Vec<AnyValue>, OutOfMemory>
    requires { All (λ (s : StoredRow). place < vec_len s.values) (values rows.now) }
    ensures { IfOk result (λ v.
        data_of v.items
        ≡ map (λ (s : StoredRow). slice_index_or (data_of s.values.items) place null)
        (values rows.now)) }
{
    let mut fields = Vec::with_capacity(alloc, rows.len())?;
    for row in rows.values() {
        fields.push(row.values[place].as_ref().to_value(alloc)?)?;
    }
    Ok(fields)
}

// The values as the only list.
fn one_list(alloc: Global, values: Vec<AnyValue>) -> Result<Vec<Vec<AnyValue>>, OutOfMemory>
    ensures { IfOk result (λ v. lists_of v.items ≡ data_of values.items ∷ []) }
{
    Ok(vec![in alloc; values]?)
}

// The column of these values, which are of the type of the field.
fn column_of(alloc: Global, field: &Field, values: Vec<AnyValue>) -> PolarsResult<Column>
    requires typed { All (HasType (kind_of field.now.dtype)) (data_of values.items) }
    requires few { length (data_of values.items) ≤ MAX_ROWS }
    ensures settles { Settles result None }
    ensures column { IfOk result (λ c.
        plain_column c
        ≡ record
        { name = field.now.name; kind = kind_of field.now.dtype; values = data_of values.items }) }
{
    let dtype = field.dtype.copy(alloc)?;
    let chunks = one_list(alloc, values)?;
    Column::from_chunks(alloc, field.name.as_str(), dtype, chunks)
}

// The column at a place.
fn column_now(
    alloc: Global,
    rows: &SideRows,
    field: &Field,
    place: usize,
) -> Result<Column, OutOfMemory>
    requires kept { AreRows (side_state rows.now) }
    requires long { All (λ (s : StoredRow). place < vec_len s.values) (values rows.now.rows) }
    requires typed { All
        (λ (s : StoredRow).
        HasType (kind_of field.now.dtype) (slice_index_or (data_of s.values.items) place null))
        (values rows.now.rows) }
    ensures { IfOk result (λ c.
        plain_column c ≡ column_now (side_state rows.now).rows (place, part field.now)) }
{
    let fields = fields_at(alloc, &rows.rows, place)?;
    only_memory(column_of(alloc, field, fields))
}

/// The table of the rows of a side.
pub(crate) fn table_now(alloc: Global, rows: &SideRows) -> Result<DataFrame, OutOfMemory>
    requires kept { AreRows (side_state rows.now) }
    requires placed { IsPlaced rows.now }
    ensures { IfOk result (λ t. table_of t ≡ table_now (side_state rows.now)) }
{
    let mut columns = Vec::with_capacity(alloc, rows.columns.len())?;
    for place in 0..rows.columns.len() {
        columns.push(column_now(alloc, rows, &rows.columns[place], place)?)?;
    }
    only_memory(DataFrame::new(alloc, columns))
}
