//! The columns that a request names, and its refusals by names and types.
ghost use Rattle.std.specs.Prelude.{◌≡◌, ◌∷◌, [], ◌++◌, not, true, IfOk, OnOk, length, map};
ghost use Rattle.std.specs.List.{All};
ghost use Rattle.tb_value.specs.Promise.Refusals.{first_cause};
ghost use Rattle.tb_value.specs.Refusals.{Settles};
ghost use Rattle.tb_chunk.specs.Lent.{lent_columns};
ghost use Rattle.tb_frame.specs.Promise.Naming.{is_among};
ghost use Rattle.tb_frame.specs.Promise.Refusal.{repeated_among};
ghost use Rattle.tb_frame.specs.Promise.Table.{height, names_of, plain_column, table_of};
ghost use Rattle.tb_label.specs.Promise.Label.{is_header};
ghost use Rattle.tb_pivot.specs.Lookup.{AreAsHigh, AreFound};
ghost use Rattle.tb_pivot.specs.Made.{takes};
ghost use Rattle.tb_pivot.specs.Promise.Refusal.{agg_cause, brace_taken, column_causes, has_no_kind, header_cause};

use crate::headers::brace_name;
use crate::maker::CellMaker;
use std::alloc::Global;
use tb_frame::{DataFrame, check_distinct, check_repeated, lend_columns, push_names};
use tb_label::is_header_type;
use tb_store::Series;
use tb_value::{ComputeCause, InvalidCause, OutOfMemory, PlSmallStr, PolarsError, PolarsResult};

/// The columns that are named, in the order of their names.
#[derive(Drop)]
pub(crate) struct WideColumns<'a> {
    /// The columns whose rows become headers.
    pub(crate) on: Vec<&'a Series>,
    /// The columns of the index.
    pub(crate) index: Vec<&'a Series>,
    /// The columns of whose values cells are made.
    pub(crate) values: Vec<&'a Series>,
}

// The names of both lists, lent.
fn names_in_row<'a>(
    alloc: Global,
    first: &'a [PlSmallStr],
    second: &'a [PlSmallStr],
) -> Result<Vec<&'a PlSmallStr>, OutOfMemory>
    ensures { IfOk result (λ v. map (λ n. n.now) v.items ≡ first.now ++ second.now) }
{
    let mut names = Vec::with_capacity(alloc, first.len())?;
    push_names(&mut names, first)?;
    push_names(&mut names, second)?;
    Ok(names)
}

// Refuses the first name that stands twice in `on` followed by the index (Duplicate).
fn check_keys(alloc: Global, on: &[PlSmallStr], index: &[PlSmallStr]) -> PolarsResult<()>
    ensures { Settles result (repeated_among (on.now ++ index.now)) }
{
    check_distinct(alloc, &names_in_row(alloc, on, index)?)
}

fn has_column(table: &DataFrame, name: &PlSmallStr) -> bool
    ensures { result ≡ is_among (names_of (table_of table.now)) name.now }
{
    table.position(name.as_str()).is_some()
}

// Refuses the name in braces, where several columns become headers and a column has it (BraceName).
fn check_brace_name(alloc: Global, table: &DataFrame, on: &[PlSmallStr]) -> PolarsResult<()>
    ensures { Settles result (brace_taken (table_of table.now) on.now) }
{
    if on.len() <= 1 {
        return Ok(());
    }
    let name = brace_name(alloc, on)?;
    if has_column(table, &name) {
        return Err(PolarsError::ComputeError(ComputeCause::BraceName(name)));
    }
    Ok(())
}

// Refuses the first column whose values have no header texts (HeaderType).
fn check_headers(alloc: Global, columns: &[&Series]) -> PolarsResult<()>
    ensures { Settles result (header_cause (table_of (lent_columns columns.now))) }
{
    for column in columns {
        if !is_header_type(column.dtype()) {
            return Err(PolarsError::InvalidOperation(InvalidCause::HeaderType(
                column.name().copy(alloc)?,
            )));
        }
    }
    Ok(())
}

// Whether cells are made of the column's values.
fn is_taken<M: CellMaker>(column: &Series, maker: &M) -> bool
    ensures { not result ≡ has_no_kind (M.way maker.now) (plain_column column.now) }
{
    maker.takes(column.dtype())
}

// Refuses the first column whose type is not taken (AggType).
fn check_values<M: CellMaker>(alloc: Global, columns: &[&Series], maker: &M) -> PolarsResult<()>
    ensures { Settles result (agg_cause (M.way maker.now) (table_of (lent_columns columns.now))) }
{
    for column in columns {
        if !is_taken(column, maker) {
            return Err(PolarsError::InvalidOperation(InvalidCause::AggType(
                column.name().copy(alloc)?,
            )));
        }
    }
    Ok(())
}

/// What is found of the columns that are named, for cells that `maker` makes. They have as many rows as the table.
///
/// # Errors
///
/// The first of these that holds, or `OutOfMemory`:
/// 1. `ColumnNotFound`: a name is of no column, in `on`, then in `index`, then in `values`;
/// 2. `Duplicate`: a name stands twice in `on` followed by `index`, and then in `values`;
/// 3. `BraceName`: `on` has several names, and a column is called by them in quotes and braces;
/// 4. `HeaderType`: values of a column of `on` have no header texts;
/// 5. `AggType`: `maker` doesn't take the type of a column of `values`.
pub(crate) fn found<'a, M: CellMaker>(
    alloc: Global,
    table: &'a DataFrame,
    on: &[PlSmallStr],
    index: &[PlSmallStr],
    values: &[PlSmallStr],
    maker: &M,
) -> PolarsResult<WideColumns<'a>>
    ensures settles { Settles result
        (first_cause
        (column_causes (table_of table.now) on.now index.now values.now (M.way maker.now))) }
    ensures found { IfOk result (AreFound table.now on.now index.now values.now) }
    ensures high { IfOk result (AreAsHigh (height (table_of table.now))) }
    ensures taken { IfOk result (λ f.
        All (λ c. takes (M.way maker.now) c.now.kind ≡ true) f.values.items) }
{
    let columns = table.get_columns();
    let on_columns = lend_columns(alloc, columns, on)?;
    let index_columns = lend_columns(alloc, columns, index)?;
    let value_columns = lend_columns(alloc, columns, values)?;
    check_keys(alloc, on, index)?;
    check_repeated(alloc, values)?;
    check_brace_name(alloc, table, on)?;
    check_headers(alloc, &on_columns)?;
    check_values(alloc, &value_columns, maker)?;
    Ok(WideColumns {
        on: on_columns,
        index: index_columns,
        values: value_columns,
    })
}
