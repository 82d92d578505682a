//! The columns of an answer.
ghost use Rattle.std.specs.Prelude.{◌≡◌, ◌≤◌, All, IfOk, None, length, map, position};
ghost use Rattle.std.specs.Option.{ForSome, option_copied};
ghost use Rattle.tb_value.specs.Promise.Names.{same_name};
ghost use Rattle.tb_value.specs.Refusals.{Settles};
ghost use Rattle.tb_chunk.specs.Promise.Col.{Col, values};
ghost use Rattle.tb_chunk.specs.Rows.{IsRowOf};
ghost use Rattle.tb_frame.specs.Answer.{ArePairsOf, IsPairOf, fill};
ghost use Rattle.tb_frame.specs.Frame.{without_names};
ghost use Rattle.tb_frame.specs.Promise.Join.{IsAnswer, out};
ghost use Rattle.tb_frame.specs.Promise.Refusal.{join_valid};
ghost use Rattle.tb_frame.specs.RightColumns.{gone_left};
ghost use Rattle.tb_frame.specs.Promise.Table.{table_of, height};
ghost use Rattle.tb_keys.specs.Asked.{IsByNames, asked_request};
ghost use Rattle.tb_chunk.specs.Lent.{lent_columns};
ghost use Rattle.tb_keys.specs.Coalescing.{coalescing_key, left_column};

use crate::beside::columns_beside;
use std::alloc::Global;
use tb_frame::{DataFrame, coalesce_columns, gone_left, left_rows, right_rows};
use tb_keys::LentRequest;
use tb_store::{Column, Series};
use tb_value::{JoinPair, MAX_ROWS, NullableIdxSize, OutOfMemory, PlSmallStr, PolarsResult};

// The left columns that stand in the answer.
fn kept_left(alloc: Global, request: &LentRequest<'_>) -> Result<DataFrame, OutOfMemory>
    ensures { IfOk result (λ t.
        t
        ≡ without_names (gone_left (asked_request request.now).args request.now.left_on.now)
        request.now.left.now) }
{
    request.left.drop_many(alloc, gone_left(request.how, request.args, request.left_on))
}

fn place_of(names: &[PlSmallStr], name: &PlSmallStr) -> Option<usize>
    ensures { result ≡ position (same_name name.now) names.now }
{
    names
        .iter()
        .position(|other| name.as_str() == other.as_str())
}

// The right key that a left column of this name is coalesced with: that of its place, in a coalesced Full join.
fn coalesced_key<'a>(request: &LentRequest<'a>, name: &PlSmallStr) -> Option<&'a Series>
    ensures { option_copied result ≡ coalescing_key request.now name.now }
{
    if !request.coalesces_keys() {
        return None;
    }
    let place = place_of(request.left_on, name)?;
    request.right_keys.get(place).copied()
}

// A left column with its rows, and with the values of a right key where it has none.
fn left_column(
    alloc: Global,
    column: &Column,
    key: Option<&Series>,
    left_rows: &[NullableIdxSize],
    right_rows: &[NullableIdxSize],
) -> Result<Column, OutOfMemory>
    requires left_rows { All (IsRowOf (length (values column.now))) left_rows.now }
    requires right_rows { ForSome (option_copied key) (λ k.
        All (IsRowOf (length (values k))) right_rows.now) }
    requires level { length left_rows.now ≡ length right_rows.now }
    requires few { length left_rows.now ≤ MAX_ROWS }
    requires one_type { ForSome (option_copied key) (λ k. column.now.kind ≡ k.kind) }
    ensures { IfOk result (λ c.
        c ≡ left_column left_rows.now right_rows.now (option_copied key.entry) column.now) }
{
    let column = column.take_opt(alloc, left_rows)?;
    match key {
        None => Ok(column),
        Some(key) => {
            let key = key.take_opt(alloc, right_rows)?.into_column();
            coalesce_columns(alloc, &column, &key)
        }
    }
}

fn left_columns(
    alloc: Global,
    request: &LentRequest<'_>,
    columns: &[Column],
    left_rows: &[NullableIdxSize],
    right_rows: &[NullableIdxSize],
) -> Result<Vec<Column>, OutOfMemory>
    requires left_rows { All (λ (c : Col). All (IsRowOf (length (values c))) left_rows.now)
        columns.now }
    requires right_rows { All (λ (c : Col). All (IsRowOf (length (values c))) right_rows.now)
        (lent_columns request.now.right_keys.now) }
    requires level { length left_rows.now ≡ length right_rows.now }
    requires few { length left_rows.now ≤ MAX_ROWS }
    requires types { All
        (λ (c : Col). ForSome (coalescing_key request.now c.name) (λ k. c.kind ≡ k.kind))
        columns.now }
    ensures { IfOk result (λ v.
        v.items
        ≡ map
        (λ (c : Col).
        left_column left_rows.now right_rows.now (coalescing_key request.now c.name) c)
        columns.now) }
{
    let mut made = Vec::with_capacity(alloc, columns.len())?;
    for column in columns {
        let key = coalesced_key(request, column.name());
        made.push(left_column(alloc, column, key, left_rows, right_rows)?)?;
    }
    Ok(made)
}

fn answer_columns(
    alloc: Global,
    request: &LentRequest<'_>,
    pairs: &[JoinPair],
) -> Result<Vec<Column>, OutOfMemory>
    requires named { IsByNames request.now }
    requires valid { join_valid (asked_request request.now) }
    requires pairs { All
        (IsPairOf (height (table_of request.now.left.now))
        (height (table_of request.now.right.now)))
        pairs.now }
    requires few { length pairs.now ≤ MAX_ROWS }
    ensures { IfOk result (λ v.
        table_of v.items ≡ map (fill pairs.now) (out (asked_request request.now))) }
{
    let _columns = request.left.get_columns();
    let kept = kept_left(alloc, request)?;
    let left = left_rows(alloc, pairs)?;
    let right = right_rows(alloc, pairs)?;
    let mut columns = left_columns(alloc, request, kept.get_columns(), &left, &right)?;
    let mut beside = columns_beside(
        alloc,
        request.how,
        request.args,
        kept.get_columns(),
        request.right.get_columns(),
        request.right_on,
        &right,
    )?;
    columns.append(&mut beside)?;
    Ok(columns)
}

/// The table over these pairs. Only memory may be wanting.
pub fn answer_table(
    alloc: Global,
    request: &LentRequest<'_>,
    pairs: &[JoinPair],
) -> PolarsResult<DataFrame>
    requires named { IsByNames request.now }
    requires valid { join_valid (asked_request request.now) }
    requires listed { ArePairsOf (asked_request request.now) pairs.now }
    ensures settles { Settles result None }
    ensures answer { IfOk result (λ t. IsAnswer (asked_request request.now) (table_of t)) }
{
    let columns = answer_columns(alloc, request, pairs)?;
    DataFrame::new(alloc, columns)
}
