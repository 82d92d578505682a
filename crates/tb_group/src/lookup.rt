//! The columns that a request names, and its refusals by names and types.
ghost use Rattle.std.specs.Prelude.{◌≡◌, ◌<◌, ◌∷◌, [], ◌++◌, Option, None, Some, IfOk, OnOk, length, map};
ghost use Rattle.std.specs.List.{zip};
ghost use Rattle.tb_value.specs.Promise.Refusals.{first_cause};
ghost use Rattle.tb_value.specs.Refusals.{Settles, SettlesOutright};
ghost use Rattle.tb_chunk.specs.Lent.{lent_columns};
ghost use Rattle.tb_frame.specs.Promise.Refusal.{repeated_among};
ghost use Rattle.tb_frame.specs.Promise.Table.{table_of};
ghost use Rattle.tb_group.specs.Asked.{asked_list, Asked, AreFound};
ghost use Rattle.tb_group.specs.Promise.Refusal.{key_kind, name_causes, no_keys, type_cause};
ghost use Rattle.tb_group.specs.Promise.Request.{agg_names, agg_sources, lent_request};

use crate::request::GroupAgg;
use std::alloc::Global;
use tb_frame::{DataFrame, check_distinct, check_repeated, lend_columns, push_names};
use tb_store::Series;
use tb_value::{InvalidCause, OutOfMemory, PlSmallStr, PolarsError, PolarsResult};

/// The columns that are named, in the order of their names.
#[derive(Drop)]
pub(crate) struct GroupColumns<'a> {
    /// Those by which rows are grouped.
    pub by: Vec<&'a Series>,
    /// Those of whose values aggregates are made, one for each aggregate.
    pub sources: Vec<&'a Series>,
}

/// An aggregate that is asked for, and the column of whose values it is made.
#[derive(Clone, Copy)]
pub(crate) struct AskedColumn<'a> {
    pub asked: &'a GroupAgg,
    pub column: &'a Series,
}

// Refuses a grouping by no column (NoKeys).
fn check_some(by: &[PlSmallStr]) -> PolarsResult<()>
    ensures { SettlesOutright result (no_keys by.now) }
{
    if by.is_empty() {
        return Err(PolarsError::InvalidOperation(InvalidCause::NoKeys));
    }
    Ok(())
}

// The names of the columns of whose values aggregates are made.
fn source_names(alloc: Global, aggs: &[GroupAgg]) -> Result<Vec<PlSmallStr>, OutOfMemory>
    ensures { IfOk result (λ v. v.items ≡ agg_sources aggs.now) }
{
    let mut names = Vec::with_capacity(alloc, aggs.len())?;
    for agg in aggs {
        names.push(agg.column.copy(alloc)?)?;
    }
    Ok(names)
}

// Refuses the first place of a column that is of no key type (KeyKind).
fn check_kinds(columns: &[&Series]) -> PolarsResult<()>
    ensures { SettlesOutright result (key_kind (table_of (lent_columns columns.now))) }
{
    for place in 0..columns.len() {
        if !columns[place].dtype().is_key() {
            return Err(PolarsError::InvalidOperation(InvalidCause::KeyKind { place }));
        }
    }
    Ok(())
}

// An aggregate beside its column.
fn beside<'a>(asked: &'a GroupAgg, column: &'a Series) -> AskedColumn<'a>
    ensures asked { result.asked.now ≡ asked.now }
    ensures column { result.column.now ≡ column.now }
{
    AskedColumn { asked, column }
}

/// The aggregates beside their columns.
pub(crate) fn asked_columns<'a>(
    alloc: Global,
    aggs: &'a [GroupAgg],
    sources: &[&'a Series],
) -> Result<Vec<AskedColumn<'a>>, OutOfMemory>
    requires { length sources.now ≡ length aggs.now }
    ensures { IfOk result (λ v.
        asked_list v.items ≡ zip aggs.now (table_of (lent_columns sources.now))) }
{
    let mut asked = Vec::with_capacity(alloc, aggs.len())?;
    for place in 0..aggs.len() {
        asked.push(beside(&aggs[place], sources[place]))?;
    }
    Ok(asked)
}

// Refuses the first aggregate that doesn't take the type of its column (AggType).
fn check_types(alloc: Global, asked: &[AskedColumn<'_>]) -> PolarsResult<()>
    ensures { Settles result
        (first_cause (map (λ (a : Asked). type_cause a.0 a.1) (asked_list asked.now))) }
{
    for one in asked {
        if !one.asked.agg.takes(one.column.dtype()) {
            return Err(PolarsError::InvalidOperation(InvalidCause::AggType(
                one.asked.column.copy(alloc)?,
            )));
        }
    }
    Ok(())
}

// Puts the names of the columns that are made behind the others.
fn push_made_names<'a>(
    names: &mut Vec<&'a PlSmallStr>,
    aggs: &'a [GroupAgg],
) -> Result<(), OutOfMemory>
    ensures { OnOk result
        (map (λ n. n.now) names.new.items
        ≡ map (λ n. n.now) names.old.items ++ agg_names aggs.now) }
{
    for agg in aggs {
        names.push(&agg.name)?;
    }
    Ok(())
}

// The names of the columns of the answer.
fn answer_names<'a>(
    alloc: Global,
    by: &'a [PlSmallStr],
    aggs: &'a [GroupAgg],
) -> Result<Vec<&'a PlSmallStr>, OutOfMemory>
    ensures { IfOk result (λ v. map (λ n. n.now) v.items ≡ by.now ++ agg_names aggs.now) }
{
    let mut names = Vec::with_capacity(alloc, by.len())?;
    push_names(&mut names, by)?;
    push_made_names(&mut names, aggs)?;
    Ok(names)
}

// Refuses the first name that two columns of the answer would have (Duplicate).
fn check_answer_names(alloc: Global, by: &[PlSmallStr], aggs: &[GroupAgg]) -> PolarsResult<()>
    ensures { Settles result (repeated_among (by.now ++ agg_names aggs.now)) }
{
    check_distinct(alloc, &answer_names(alloc, by, aggs)?)
}

/// What is found of the columns that are named.
///
/// # Errors
///
/// The first of these that holds, or `OutOfMemory`:
/// 1. `NoKeys`: no column is named to group by;
/// 2. `ColumnNotFound`: a name is of no column, in `by`, and then of an aggregate;
/// 3. `Duplicate`: a name stands twice in `by`;
/// 4. `KeyKind`: a column of `by` is of type Null, List or Struct;
/// 5. `AggType`: an aggregate doesn't take the type of its column;
/// 6. `Duplicate`: two columns of the answer would have this name.
pub(crate) fn found<'a>(
    alloc: Global,
    table: &'a DataFrame,
    by: &[PlSmallStr],
    aggs: &'a [GroupAgg],
) -> PolarsResult<GroupColumns<'a>>
    ensures settles { Settles result
        (first_cause (name_causes (lent_request table.now by.now aggs.now))) }
    ensures found { IfOk result (AreFound table.now by.now aggs.now) }
{
    check_some(by)?;
    let columns = table.get_columns();
    let by_columns = lend_columns(alloc, columns, by)?;
    let sources = lend_columns(alloc, columns, &source_names(alloc, aggs)?)?;
    check_repeated(alloc, by)?;
    check_kinds(&by_columns)?;
    check_types(alloc, &asked_columns(alloc, aggs, &sources)?)?;
    check_answer_names(alloc, by, aggs)?;
    Ok(GroupColumns {
        by: by_columns,
        sources,
    })
}
