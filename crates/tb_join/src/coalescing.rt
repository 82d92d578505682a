//! The columns of a coalesced Full join, whose keys are coalesced.
ghost use Rattle.std.specs.Prelude.{◌≡◌, ◌≤◌, All, IfOk, None, length, map, true};
ghost use Rattle.std.specs.Option.{ForSome, option_copied};
ghost use Rattle.tb_value.specs.Promise.Names.{Name};
ghost use Rattle.tb_value.specs.Refusals.{Settles};
ghost use Rattle.tb_chunk.specs.Promise.Col.{Col, values};
ghost use Rattle.tb_chunk.specs.Lent.{lent_columns};
ghost use Rattle.tb_frame.specs.Answer.{IsPairOf, fill};
ghost use Rattle.tb_frame.specs.Promise.Frame.{selected_columns};
ghost use Rattle.tb_frame.specs.Promise.Join.{out};
ghost use Rattle.tb_frame.specs.NamedColumns.{column_by};
ghost use Rattle.tb_frame.specs.Promise.Naming.{coalesces, coalesces_keys};
ghost use Rattle.tb_frame.specs.Promise.Refusal.{unknown_key};
ghost use Rattle.tb_frame.specs.Promise.Table.{height, table_of};
ghost use Rattle.tb_keys.specs.Asked.{asked_request};
ghost use Rattle.tb_keys.specs.Coalescing.{key_beside};
ghost use Rattle.tb_join.specs.AnswerColumns.{Fits, filled_column, coalesced_part};
ghost use Rattle.tb_join.specs.Ready.{CanCoalesceKeys};

use crate::kept::{parted, side_rows};
use crate::names::side_by_side;
use std::alloc::Global;
use std::thread::Threads;
use tb_frame::{NamedColumns, lend_columns, suffix_of};
use tb_gather::{LeftRow, RightRow};
use tb_keys::LentRequest;
use tb_store::{Column, Series};
use tb_value::{IsSorted, JoinPair, MAX_ROWS, OutOfMemory, PlSmallStr, PolarsResult};

// The column at each place under the name at that place.
fn columns_beside<'a>(
    alloc: Global,
    names: &'a [PlSmallStr],
    columns: &[&'a Series],
) -> Result<NamedColumns<'a>, OutOfMemory>
    requires { length names.now ≤ length columns.now }
    ensures { IfOk result (λ m.
        (n : Name) → column_by m n ≡ key_beside names.now (lent_columns columns.now) n) }
{
    let mut beside = NamedColumns::new(alloc);
    for place in 0..names.len() {
        beside.insert(&names[place], columns[place])?;
    }
    Ok(beside)
}

// A column, with the values of another where it has none. Where there is no other it is handed back as it is.
fn filled_up(alloc: Global, column: Column, other: Option<&Series>) -> Result<Column, OutOfMemory>
    requires { ForSome (option_copied other) (Fits column) }
    ensures { IfOk result (λ c. c ≡ filled_column (option_copied other.entry) column) }
{
    match other {
        None => Ok(column),
        Some(other) => {
            let coalesced = column.as_materialized_series().coalesce(alloc, other)?;
            Ok(coalesced.into_column())
        }
    }
}

// Each column, with the values of the one that is under its name where it has none.
fn all_filled_up(
    alloc: Global,
    columns: Vec<Column>,
    others: &NamedColumns<'_>,
) -> Result<Vec<Column>, OutOfMemory>
    requires { All (λ (c : Col). ForSome (column_by others.now c.name) (Fits c)) columns.items }
    ensures { IfOk result (λ v.
        v.items ≡ map (λ (c : Col). filled_column (column_by others.now c.name) c) columns.items) }
{
    let mut filled = Vec::with_capacity(alloc, columns.len())?;
    for column in columns {
        let other = others.get(column.name());
        filled.push(filled_up(alloc, column, other)?)?;
    }
    Ok(filled)
}

/// The left columns, those of the names on the left with the values of the right column at the same place where they
/// have none, and the others as they are. All right names are those of columns.
pub fn coalesced_left(
    alloc: Global,
    left: Vec<Column>,
    right: &[Column],
    left_on: &[PlSmallStr],
    right_on: &[PlSmallStr],
) -> PolarsResult<Vec<Column>>
    requires known { unknown_key (table_of right.now) right_on.now ≡ None }
    requires many { length left_on.now ≤ length (selected_columns right_on.now right.now) }
    requires fit { All
        (λ (c : Col).
        ForSome (key_beside left_on.now (selected_columns right_on.now right.now) c.name)
        (Fits c))
        left.items }
    ensures settles { Settles result None }
    ensures columns { IfOk result (λ v.
        v.items ≡ coalesced_part left_on.now (selected_columns right_on.now right.now) left.items) }
{
    let keys = lend_columns(alloc, right, right_on)?;
    let beside = columns_beside(alloc, left_on, &keys)?;
    Ok(all_filled_up(alloc, left, &beside)?)
}

/// The columns of the answer over the pairs, where the right keys are coalesced into the left ones. Only memory may be
/// wanting.
pub(crate) fn coalesced_columns(
    rt: &(impl Threads + Sync),
    alloc: Global,
    request: &LentRequest<'_>,
    pairs: &[JoinPair],
) -> PolarsResult<Vec<Column>>
    requires coalesces { coalesces_keys request.now.how (coalesces (asked_request request.now).args)
        ≡ true }
    requires pairs { All
        (IsPairOf (height (table_of request.now.left.now))
        (height (table_of request.now.right.now)))
        pairs.now }
    requires few { length pairs.now ≤ MAX_ROWS }
    requires coalescing { CanCoalesceKeys (asked_request request.now) }
    ensures settles { Settles result None }
    ensures columns { IfOk result (λ v.
        table_of v.items ≡ map (fill pairs.now) (out (asked_request request.now))) }
{
    let not = IsSorted::Not;
    let left = side_rows::<LeftRow>(rt, alloc, request.left, &[], pairs, not)?;
    let right = side_rows::<RightRow>(rt, alloc, request.right, &[], pairs, not)?;
    let (keys, rest) = parted(alloc, right, request.right_on)?;
    let columns = coalesced_left(alloc, left, &keys, request.left_on, request.right_on)?;
    Ok(side_by_side(alloc, columns, rest, suffix_of(request.args))?)
}
