//! The tables of the parts.
ghost use Rattle.std.specs.Prelude.{◌≡◌, ◌≤◌, IfOk, length, map};
ghost use Rattle.std.specs.List.{All};
ghost use Rattle.tb_value.specs.Promise.Pairs.{row_numbers};
ghost use Rattle.tb_value.specs.Refusals.{Settles};
ghost use Rattle.tb_chunk.specs.Lent.{in_one_chunk};
ghost use Rattle.tb_frame.specs.Promise.Table.{height, table_of};
ghost use Rattle.tb_parts.specs.Promise.Parts.{table_among};
ghost use Rattle.tb_split.specs.Keys.{AreRowsOf};
ghost use Rattle.tb_split.specs.Promise.Split.{split_refusal, split_table};

use crate::keys::key_columns;
use crate::parts::rows_of_parts;
use std::alloc::Global;
use tb_frame::DataFrame;
use tb_numbered::RowsByNumber;
use tb_value::{OutOfMemory, PlSmallStr, PolarsResult};

// The table, each column in one chunk, so that the rows of a part are taken in steps of their number.
fn in_one_chunk(alloc: Global, table: &DataFrame) -> Result<DataFrame, OutOfMemory>
    ensures { IfOk result (λ t. t ≡ map in_one_chunk table.now) }
{
    let mut whole = table.copy(alloc)?;
    whole.as_single_chunk_par(alloc)?;
    Ok(whole)
}

// The tables of the rows of each part, of which there are so many.
fn tables_of(
    alloc: Global,
    table: &DataFrame,
    rows: &RowsByNumber,
    parts: u32,
) -> Result<Vec<DataFrame>, OutOfMemory>
    requires many { length rows.now ≡ parts }
    requires each { All (AreRowsOf (height (table_of table.now))) rows.now }
    ensures { IfOk result (λ ts.
        map table_of ts.items
        ≡ map (λ rs. table_among rs (table_of table.now)) rows.now) }
{
    let mut tables = Vec::with_capacity(alloc, parts as usize)?;
    for part in 0..parts {
        tables.push(table.take(alloc, rows.rows(part as usize))?)?;
    }
    Ok(tables)
}

/// The table in so many parts, in the order of the parts: each row is in one of them, and rows of equal keys are in one, of
/// whichever tables they are. In a part rows keep their order, and rows with a Null key are all in part 0. It takes steps in the
/// number of fields, and in that of the parts times the columns and their buffers of texts.
///
/// # Errors
///
/// The first of these that holds, or `OutOfMemory`:
/// 1. `NoKeys`: there is no name;
/// 2. `ColumnNotFound`: a name is of no column;
/// 3. `Duplicate`: a name stands twice;
/// 4. `KeyKind`: a column is of type Null, List or Struct.
pub fn split(
    alloc: Global,
    table: &DataFrame,
    on: &[PlSmallStr],
    parts: u32,
) -> PolarsResult<Vec<DataFrame>>
    requires { 1 ≤ parts }
    ensures settles { Settles result (split_refusal (table_of table.now) on.now) }
    ensures tables { IfOk result (λ ts.
        map table_of ts.items
        ≡ map (split_table (table_of table.now) on.now parts) (row_numbers parts)) }
{
    let keys = key_columns(alloc, table, on)?;
    let rows = rows_of_parts(alloc, &keys, parts)?;
    let whole = in_one_chunk(alloc, table)?;
    let tables = tables_of(alloc, &whole, &rows, parts)?;
    Ok(tables)
}
