//! The names of a request, where not all of them are given.
ghost use Rattle.std.specs.Prelude.{◌≡◌, ◌&&◌, ◌||◌, not, IfOk, is_none, unwrap_or, []};
ghost use Rattle.std.specs.Option.{option_copied};
ghost use Rattle.tb_value.specs.Promise.Refusals.{first_cause, when};
ghost use Rattle.tb_value.specs.Refusals.{Settles, SettlesOutright};
ghost use Rattle.tb_value.specs.declared.error.InvalidCause.TheVariants.{BothNone};
ghost use Rattle.tb_value.specs.declared.error.PolarsError.TheVariants.{ComputeError, InvalidOperation};
ghost use Rattle.tb_frame.specs.NameSets.{has_name};
ghost use Rattle.tb_frame.specs.Promise.Table.{table_of};
ghost use Rattle.tb_pivot.specs.Lent.{name_causes};
ghost use Rattle.tb_pivot.specs.Promise.Refusal.{none_named};
ghost use Rattle.tb_pivot.specs.Promise.Request.{given_or_rest, outside};

use std::alloc::Global;
use tb_frame::{DataFrame, NameSet, copy_names, name_set};
use tb_value::{ComputeCause, InvalidCause, OutOfMemory, PlSmallStr, PolarsError, PolarsResult};

/// The names of the columns of the index and of the values.
#[derive(Drop)]
pub(crate) struct RequestNames {
    pub(crate) index: Vec<PlSmallStr>,
    pub(crate) values: Vec<PlSmallStr>,
}

fn is_in_neither(names: &NameSet<'_>, others: &NameSet<'_>, name: &PlSmallStr) -> bool
    ensures { result ≡ not (has_name names.now name.now || has_name others.now name.now) }
{
    !(names.contains(name) || others.contains(name))
}

// The names of the table's columns that are in neither list.
fn outside(
    alloc: Global,
    table: &DataFrame,
    names: &[PlSmallStr],
    others: &[PlSmallStr],
) -> Result<Vec<PlSmallStr>, OutOfMemory>
    ensures { IfOk result (λ v. v.items ≡ outside (table_of table.now) names.now others.now) }
{
    let names = name_set(alloc, names)?;
    let others = name_set(alloc, others)?;
    let mut rest = Vec::new(alloc);
    for column in table.get_columns() {
        if is_in_neither(&names, &others, column.name()) {
            rest.push(column.name().copy(alloc)?)?;
        }
    }
    Ok(rest)
}

// The names, and none where none are given.
fn names_or_none<'a>(names: Option<&'a [PlSmallStr]>) -> &'a [PlSmallStr]
    ensures { result.now ≡ unwrap_or (option_copied names.entry) [] }
{
    match names {
        Some(names) => names,
        None => &[],
    }
}

// The names, and where none are given those of the columns that are neither in `on` nor among the others.
fn given_or_rest(
    alloc: Global,
    table: &DataFrame,
    on: &[PlSmallStr],
    names: Option<&[PlSmallStr]>,
    others: Option<&[PlSmallStr]>,
) -> Result<Vec<PlSmallStr>, OutOfMemory>
    ensures { IfOk result (λ v.
        v.items
        ≡ given_or_rest (table_of table.now) on.now (option_copied names.entry)
        (option_copied others.entry)) }
{
    match names {
        Some(names) => copy_names(alloc, names),
        None => outside(alloc, table, on, names_or_none(others)),
    }
}

// Refuses where neither are given (BothNone).
fn check_given(index: Option<&[PlSmallStr]>, values: Option<&[PlSmallStr]>) -> PolarsResult<()>
    ensures { SettlesOutright result
        (when (is_none (option_copied index.entry) && is_none (option_copied values.entry))
        (InvalidOperation BothNone)) }
{
    if index.is_none() && values.is_none() {
        return Err(PolarsError::InvalidOperation(InvalidCause::BothNone));
    }
    Ok(())
}

// Refuses no names, for the cause.
fn check_named(names: &[PlSmallStr], cause: ComputeCause) -> PolarsResult<()>
    ensures { SettlesOutright result (none_named names.now (ComputeError cause)) }
{
    match names {
        [] => Err(PolarsError::ComputeError(cause)),
        [_, ..] => Ok(()),
    }
}

/// The names of the index and of the values, as they are given or as the rest of the table's columns.
///
/// # Errors
///
/// The first of these that holds, or `OutOfMemory`:
/// 1. `BothNone`: neither are given;
/// 2. `EmptyIndex`: the index has no name;
/// 3. `EmptyOn`: `on` has no name.
pub(crate) fn request_names(
    alloc: Global,
    table: &DataFrame,
    on: &[PlSmallStr],
    index: Option<&[PlSmallStr]>,
    values: Option<&[PlSmallStr]>,
) -> PolarsResult<RequestNames>
    ensures settles { Settles result
        (first_cause
        (name_causes (table_of table.now) on.now (option_copied index.entry)
        (option_copied values.entry))) }
    ensures index { IfOk result (λ n.
        n.index.items
        ≡ given_or_rest (table_of table.now) on.now (option_copied index.entry)
        (option_copied values.entry)) }
    ensures values { IfOk result (λ n.
        n.values.items
        ≡ given_or_rest (table_of table.now) on.now (option_copied values.entry)
        (option_copied index.entry)) }
{
    check_given(index, values)?;
    let index_names = given_or_rest(alloc, table, on, index, values)?;
    check_named(&index_names, ComputeCause::EmptyIndex)?;
    check_named(on, ComputeCause::EmptyOn)?;
    let value_names = given_or_rest(alloc, table, on, values, index)?;
    Ok(RequestNames {
        index: index_names,
        values: value_names,
    })
}
