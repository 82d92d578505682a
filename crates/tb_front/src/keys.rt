//! The types of the keys of two tables.
ghost use Rattle.std.specs.Prelude.{◌≡◌, option_map, IfOk};
ghost use Rattle.tb_value.specs.Promise.Names.{Name};
ghost use Rattle.tb_frame.specs.NamedColumns.{column_by};
ghost use Rattle.tb_frame.specs.Promise.Join.{column_named};
ghost use Rattle.tb_frame.specs.Promise.Table.{plain_column, table_of};
ghost use Rattle.tb_value.specs.SeeKind.{kind_of};
ghost use Rattle.tb_csv.specs.Promise.Texts.{field_type};
ghost use Rattle.tb_csv.specs.Promise.Types.{or_string};
ghost use Rattle.tb_front.specs.Promise.Faults.{Settles, clash, key_clash};
ghost use Rattle.tb_front.specs.Columns.{lent_column};

use crate::fault::FrontFault;
use std::alloc::Global;
use tb_csv::FieldType;
use tb_frame::{DataFrame, NamedColumns};
use tb_store::{Column, Series};
use tb_value::{DataType, OutOfMemory, PlSmallStr};

/// The type that the values of the column were read as.
pub fn type_read(dtype: &DataType) -> FieldType
    ensures { result ≡ or_string (field_type (kind_of dtype.now)) }
{
    FieldType::of(dtype).unwrap_or(FieldType::String)
}

// The columns under their names, each found in the steps of a look-up however many there are.
fn columns_by_name<'a>(
    alloc: Global,
    columns: &'a [Column],
) -> Result<NamedColumns<'a>, OutOfMemory>
    ensures { IfOk result (λ m.
        (n : Name)
        → option_map plain_column (column_by m n) ≡ column_named (table_of columns.now) n) }
{
    let mut by_name = NamedColumns::new(alloc);
    for column in columns {
        by_name.insert(column.name(), column.as_materialized_series())?;
    }
    Ok(by_name)
}

// Refuses two columns of different types, if both are there.
fn check_key(alloc: Global, left: Option<&Series>, right: Option<&Series>) -> Result<(), FrontFault>
    ensures { Settles result
        (clash (option_map lent_column left.entry) (option_map lent_column right.entry)) }
{
    let (Some(left), Some(right)) = (left, right) else {
        return Ok(());
    };
    if *left.dtype() == *right.dtype() {
        return Ok(());
    }
    Err(FrontFault::KeyTypes {
        left: left.name().copy(alloc)?,
        left_type: type_read(left.dtype()),
        right: right.name().copy(alloc)?,
        right_type: type_read(right.dtype()),
    })
}

/// Refuses the first key whose columns are of different types.
///
/// # Errors
///
/// `KeyTypes` of the first such key, or `OutOfMemory`.
pub fn check_keys(
    alloc: Global,
    left: &DataFrame,
    right: &DataFrame,
    left_on: &[PlSmallStr],
    right_on: &[PlSmallStr],
) -> Result<(), FrontFault>
    ensures { Settles result
        (key_clash (table_of left.now) (table_of right.now) left_on.now right_on.now) }
{
    let lefts = columns_by_name(alloc, left.get_columns())?;
    let rights = columns_by_name(alloc, right.get_columns())?;
    for i in 0..left_on.len().min(right_on.len()) {
        match check_key(alloc, lefts.get(&left_on[i]), rights.get(&right_on[i])) {
            Ok(()) => {}
            Err(fault) => return Err(fault),
        }
    }
    Ok(())
}
