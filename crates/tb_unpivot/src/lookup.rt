//! The columns that a request names, and its refusals but for the last.
ghost use Rattle.std.specs.Prelude.{◌≡◌, ◌≤◌, ◌*◌, ◌∷◌, [], IfOk, Ok, length, map};
ghost use Rattle.tb_value.specs.Promise.Kind as kind;
ghost use Rattle.tb_value.specs.Promise.Refusals.{first_cause};
ghost use Rattle.tb_value.specs.Refusals.{Settles};
ghost use Rattle.tb_value.specs.SeeKind.{kind_of};
ghost use Rattle.tb_value.specs.declared.error.InvalidCause.TheVariants.{NoSupertype};
ghost use Rattle.tb_value.specs.declared.error.PolarsError.TheVariants.{InvalidOperation};
ghost use Rattle.tb_chunk.specs.Promise.Col.{Col};
ghost use Rattle.tb_chunk.specs.Lent.{lent_columns};
ghost use Rattle.tb_frame.specs.Promise.Frame.{selected_columns};
ghost use Rattle.tb_frame.specs.Frame.{without_names};
ghost use Rattle.tb_frame.specs.Promise.Refusal.{unknown_key};
ghost use Rattle.tb_frame.specs.Promise.Table.{table_of};
ghost use Rattle.std.specs.Option.{option_map};
ghost use Rattle.tb_unpivot.specs.Promise.Unpivot.{asked_causes, common_kind, failed_at, no_supertype, on_names, table_causes, too_many_values};
ghost use Rattle.tb_unpivot.specs.Asked.{IsAsked};

use std::alloc::Global;
use tb_frame::{DataFrame, check_repeated, copy_names, lend_columns, name_set};
use tb_store::{Column, Series};
use tb_supertype::supertype;
use tb_value::{
    ComputeCause, DataType, InvalidCause, MAX_ROWS, OutOfMemory, PlSmallStr, PolarsError,
    PolarsResult,
};

// The names of the columns that are not in the index.
fn other_names(
    alloc: Global,
    columns: &[Column],
    index: &[PlSmallStr],
) -> Result<Vec<PlSmallStr>, OutOfMemory>
    ensures { IfOk result (λ v.
        v.items ≡ map (λ (c : Col). c.name) (without_names index.now columns.now)) }
{
    let gone = name_set(alloc, index)?;
    let mut names = Vec::new(alloc);
    for column in columns {
        if !gone.contains(column.name()) {
            names.push(column.name().copy(alloc)?)?;
        }
    }
    Ok(names)
}

/// The names of the columns that are put one below the other.
pub(crate) fn on_names(
    alloc: Global,
    columns: &[Column],
    on: &[PlSmallStr],
    index: &[PlSmallStr],
) -> Result<Vec<PlSmallStr>, OutOfMemory>
    ensures { IfOk result (λ v. v.items ≡ on_names (table_of columns.now) on.now index.now) }
{
    if on.is_empty() {
        return other_names(alloc, columns, index);
    }
    copy_names(alloc, on)
}

// The columns of these names, lent. Refuses the first name that no column has (ColumnNotFound).
fn named_columns<'a>(
    alloc: Global,
    table: &'a DataFrame,
    names: &[PlSmallStr],
) -> PolarsResult<Vec<&'a Series>>
    ensures settles { Settles result (unknown_key (table_of table.now) names.now) }
    ensures columns { IfOk result (λ v.
        lent_columns v.items ≡ selected_columns names.now table.now) }
{
    lend_columns(alloc, table.get_columns(), names)
}

// The common type of a type and the column's, or the refusal that there is none.
fn next_type(alloc: Global, dtype: &DataType, column: &Series) -> PolarsResult<DataType>
    ensures settles { Settles result
        (option_map (λ n. InvalidOperation (NoSupertype n))
        (failed_at (common_kind (kind_of dtype.now) (table_of (column.now ∷ []))))) }
    ensures value { IfOk result (λ t.
        common_kind (kind_of dtype.now) (table_of (column.now ∷ [])) ≡ Ok (kind_of t)) }
{
    let common = supertype(alloc, dtype, column.dtype())?;
    match common {
        Some(dtype) => Ok(dtype),
        None => Err(PolarsError::InvalidOperation(InvalidCause::NoSupertype(
            column.name().copy(alloc)?,
        ))),
    }
}

// The common type of the columns, taken from the first on. Refuses the first column with whose type there is none
// (NoSupertype).
fn common_type(alloc: Global, columns: &[&Series]) -> PolarsResult<DataType>
    ensures settles { Settles result (no_supertype (table_of (lent_columns columns.now))) }
    ensures value { IfOk result (λ t.
        common_kind kind.null (table_of (lent_columns columns.now)) ≡ Ok (kind_of t)) }
{
    let mut dtype = DataType::Null;
    for column in columns {
        dtype = next_type(alloc, &dtype, column)?;
    }
    Ok(dtype)
}

// Refuses so many columns of so many rows that their values are more than a column can have (TooManyRows).
fn check_height(rows: usize, columns: usize) -> PolarsResult<()>
    ensures { Settles result (too_many_values rows columns) }
{
    if rows as u128 * columns as u128 > MAX_ROWS as u128 {
        return Err(PolarsError::ComputeError(ComputeCause::TooManyRows));
    }
    Ok(())
}

// The common type of the columns of so many rows. Refuses, in this order, the first column with whose type there is
// none (NoSupertype), and too many values (TooManyRows).
fn check_columns(alloc: Global, rows: usize, columns: &[&Series]) -> PolarsResult<DataType>
    ensures settles { Settles result
        (first_cause
        (no_supertype (table_of (lent_columns columns.now))
        ∷ too_many_values rows (length columns.now) ∷ [])) }
    ensures value { IfOk result (λ t.
        common_kind kind.null (table_of (lent_columns columns.now)) ≡ Ok (kind_of t)) }
    ensures few { IfOk result (λ t. rows * length columns.now ≤ MAX_ROWS) }
{
    let dtype = common_type(alloc, columns)?;
    check_height(rows, columns.len())?;
    Ok(dtype)
}

/// The columns that are named, and their common type.
#[derive(Drop)]
pub(crate) struct LongColumns<'a> {
    pub(crate) on: Vec<&'a Series>,
    pub(crate) index: Vec<&'a Series>,
    pub(crate) dtype: DataType,
}

// What is found in a table that has a column.
fn found<'a>(
    alloc: Global,
    table: &'a DataFrame,
    on: &[PlSmallStr],
    index: &[PlSmallStr],
) -> PolarsResult<LongColumns<'a>>
    ensures settles { Settles result
        (first_cause
        (asked_causes (table_of table.now) (table_of (selected_columns on.now table.now)) on.now
        index.now)) }
    ensures asked { IfOk result (IsAsked table.now on.now index.now) }
{
    let on_columns = named_columns(alloc, table, on)?;
    let index_columns = named_columns(alloc, table, index)?;
    check_repeated(alloc, index)?;
    let dtype = check_columns(alloc, table.height(), &on_columns)?;
    Ok(LongColumns {
        on: on_columns,
        index: index_columns,
        dtype,
    })
}

fn null_type() -> DataType
    ensures { kind_of result ≡ kind.null }
{
    DataType::Null
}

/// What is found of the columns that are named. Refuses, in this order, the first name that no column has
/// (ColumnNotFound), first of `on` and then of the index, the first repeated name of the index (Duplicate), the first
/// column with whose type there is no common one (NoSupertype), and too many values (TooManyRows). In a table without
/// columns no name is looked at.
pub(crate) fn asked<'a>(
    alloc: Global,
    table: &'a DataFrame,
    on: &[PlSmallStr],
    index: &[PlSmallStr],
) -> PolarsResult<LongColumns<'a>>
    ensures settles { Settles result
        (first_cause
        (table_causes (table_of table.now) (table_of (selected_columns on.now table.now)) on.now
        index.now)) }
    ensures asked { IfOk result (IsAsked table.now on.now index.now) }
{
    if table.width() == 0 {
        return Ok(LongColumns {
            on: Vec::new(alloc),
            index: Vec::new(alloc),
            dtype: null_type(),
        });
    }
    found(alloc, table, on, index)
}
