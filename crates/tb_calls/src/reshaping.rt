//! One table made long, wide or given dummies. The table is let go.
ghost use Rattle.std.specs.Prelude.{◌≡◌, IfOk, option_map};
ghost use Rattle.std.specs.Option.{option_copied};
ghost use Rattle.tb_value.specs.Refusals.{Settles};
ghost use Rattle.tb_frame.specs.Promise.Table.{table_of};
ghost use Rattle.tb_unpivot.specs.Promise.Unpivot.{unpivot_refusal, unpivot_table};
ghost use Rattle.tb_dummies.specs.Promise.Dummies.{dummies_refusal, dummies_table};
ghost use Rattle.tb_pivot.specs.Promise.Pivot.{pivot_table};
ghost use Rattle.tb_pivot.specs.Promise.Refusal.{pivot_refusal};
ghost use Rattle.tb_calls.specs.Promise.Asked.{long_of, marked_of, names_in, wide_of};

use crate::arguments::{DummiesCall, PivotCall};
use std::alloc::Global;
use tb_dummies::DataFrameOps;
use tb_frame::DataFrame;
use tb_pivot::pivot_by;
use tb_unpivot::{UnpivotArgsIR, UnpivotDF};
use tb_value::{PlSmallStr, PolarsResult};

/// Names that may be given, lent.
pub fn names_given(names: &Option<Vec<PlSmallStr>>) -> Option<&[PlSmallStr]>
    ensures { option_copied result ≡ names_in names.now }
{
    match names {
        Some(names) => Some(names.as_slice()),
        None => None,
    }
}

/// A text that may be given, lent.
pub fn text_given(text: &Option<PlSmallStr>) -> Option<&str>
    ensures { option_copied result ≡ text.now }
{
    match text {
        Some(text) => Some(text.as_str()),
        None => None,
    }
}

/// Makes the table long.
///
/// # Errors
///
/// Those of `unpivot2`.
pub fn made_long(alloc: Global, table: DataFrame, call: UnpivotArgsIR) -> PolarsResult<DataFrame>
    ensures settles { Settles result (unpivot_refusal (long_of call (table_of table))) }
    ensures table { IfOk result (λ t. table_of t ≡ unpivot_table (long_of call (table_of table))) }
{
    table.unpivot2(alloc, call)
}

/// Replaces columns of the table by dummies.
///
/// # Errors
///
/// Those of `_to_dummies`.
pub fn with_dummies(alloc: Global, table: DataFrame, call: DummiesCall) -> PolarsResult<DataFrame>
    ensures settles { Settles result (dummies_refusal (marked_of call (table_of table))) }
    ensures table { IfOk result (λ t.
        table_of t ≡ dummies_table (marked_of call (table_of table))) }
{
    let columns = names_given(&call.columns);
    let separator = text_given(&call.separator);
    table._to_dummies(alloc, columns, separator, call.drop_first)
}

/// Makes the table wide.
///
/// # Errors
///
/// Those of `pivot_by`.
pub fn made_wide(alloc: Global, table: DataFrame, call: PivotCall) -> PolarsResult<DataFrame>
    ensures settles { Settles result (pivot_refusal (wide_of call (table_of table))) }
    ensures table { IfOk result (λ t. table_of t ≡ pivot_table (wide_of call (table_of table))) }
{
    let index = names_given(&call.index);
    let values = names_given(&call.values);
    let separator = text_given(&call.separator);
    pivot_by(
        alloc,
        &table,
        &call.on,
        index,
        values,
        call.sort_columns,
        &call.agg,
        separator,
    )
}
