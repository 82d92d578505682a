//! Which columns are replaced by dummies.
ghost use Rattle.std.specs.Prelude.{◌≡◌, IfOk, None};
ghost use Rattle.tb_value.specs.SeeKind.{kind_of};
ghost use Rattle.tb_frame.specs.Promise.Table.{table_of};
ghost use Rattle.tb_calls.specs.Promise.Asked as calls;
ghost use Rattle.tb_front.specs.Promise.Asked.{is_marked, marked_names, marked_of};

use std::alloc::Global;
use tb_calls::DummiesCall;
use tb_frame::DataFrame;
use tb_value::{DataType, OutOfMemory, PlSmallStr};

fn is_marked(dtype: &DataType) -> bool
    ensures { result ≡ is_marked (kind_of dtype.now) }
{
    matches!(dtype, DataType::String | DataType::Boolean)
}

// The names of the columns of texts and truth values.
fn marked_names(alloc: Global, table: &DataFrame) -> Result<Vec<PlSmallStr>, OutOfMemory>
    ensures { IfOk result (λ v. v.items ≡ marked_names None (table_of table.now)) }
{
    let mut names = Vec::new(alloc);
    for column in table.get_columns() {
        if is_marked(column.dtype()) {
            names.push(column.name().copy(alloc)?)?;
        }
    }
    Ok(names)
}

/// The call with the names of the columns that are replaced, also where none were given.
pub(crate) fn with_names(
    alloc: Global,
    table: &DataFrame,
    call: DummiesCall,
) -> Result<DummiesCall, OutOfMemory>
    ensures { IfOk result (λ c.
        calls.marked_of c (table_of table.now) ≡ marked_of call (table_of table.now)) }
{
    if call.columns.is_some() {
        return Ok(call);
    }
    let columns = Some(marked_names(alloc, table)?);
    Ok(DummiesCall { columns, ..call })
}
