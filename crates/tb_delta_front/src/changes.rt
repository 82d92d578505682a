//! What steps change of a join that is kept, as a table.
ghost use Rattle.std.specs.Prelude.{◌≡◌, ◌++◌, ◌∷◌, ◌≤◌, [], length, map, replicate, take, All, IfOk, OnOk, Some};
ghost use Rattle.tb_value.specs.Promise.Kind as kind;
ghost use Rattle.tb_value.specs.Promise.Typed.{HasType};
ghost use Rattle.tb_value.specs.SeeKind.{kind_of};
ghost use Rattle.tb_value.specs.declared.limits.TheConstants.{MAX_ROWS};
ghost use Rattle.tb_chunk.specs.Col.{physical};
ghost use Rattle.tb_chunk.specs.ChunkTexts.{texts_of};
ghost use Rattle.tb_chunk.specs.Seen.{chunk_lists, storage};
ghost use Rattle.tb_frame.specs.Promise.Table.{plain_column, table_of};
ghost use Rattle.tb_delta_front.specs.Changes.{column_at, id_on, kind_at, name_at, sign_cell, value_at};
ghost use Rattle.tb_delta_front.specs.Deltas.{change_view, changes_of};
ghost use Rattle.tb_delta_front.specs.Promise.Deltas as due;
ghost use Rattle.tb_delta_front.specs.Promise.Deltas.{changes_table, pair_with, sign_of};
ghost use Rattle.tb_front.specs.Promise.Due.{Gives};

use crate::change::Change;
use std::alloc::Global;
use std::thread::Threads;
use tb_frame::DataFrame;
use tb_front::{FrontFault, TextOptions, text_of_table};
use tb_store::{Cells, Chunk, Chunks, Column, IsSorted, Series, StringBuilder, StringChunk};
use tb_text::Text;
use tb_value::{
    ComputeCause, DataType, MAX_ROWS, OutOfMemory, PlSmallStr, PolarsError, Side, only_memory,
};

fn pair_with(step: u64, comes: bool, side: Side, id: u32, other: u32) -> Change
    ensures { change_view result ≡ pair_with step comes side id other }
{
    match side {
        Side::Left => Change {
            step,
            comes,
            left: id,
            right: other,
        },
        Side::Right => Change {
            step,
            comes,
            left: other,
            right: id,
        },
    }
}

/// Appends the pairs of a row of a side with these of the other.
pub(crate) fn push_pairs(
    changes: &mut Vec<Change>,
    step: u64,
    comes: bool,
    side: Side,
    id: u32,
    others: &[u32],
) -> Result<(), OutOfMemory>
    ensures { OnOk result
        (changes_of changes.new.items
        ≡ changes_of changes.old.items ++ map (pair_with step comes side id) others.now) }
{
    changes.reserve(others.len())?;
    for other in others {
        changes.push_reserved(pair_with(step, comes, side, id, *other));
    }
    Ok(())
}

// A column of the table.
#[derive(Clone, Copy)]
pub(crate) enum ChangeColumn {
    Step,
    Sign,
    Left,
    Right,
}

fn name_at(column: ChangeColumn) -> &'static str
    ensures { result.now ≡ name_at column }
{
    match column {
        ChangeColumn::Step => "step",
        ChangeColumn::Sign => "change",
        ChangeColumn::Left => "left",
        ChangeColumn::Right => "right",
    }
}

fn type_at(column: ChangeColumn) -> DataType
    ensures { kind_of result ≡ kind_at column }
{
    match column {
        ChangeColumn::Step => DataType::UInt64,
        ChangeColumn::Sign => DataType::String,
        ChangeColumn::Left | ChangeColumn::Right => DataType::UInt32,
    }
}

fn sign_of(comes: bool) -> &'static str
    ensures { result.now ≡ sign_of comes }
{
    if comes { "+" } else { "-" }
}

// The numbers of the steps.
fn step_numbers(alloc: Global, changes: &[Change]) -> Result<Vec<u64>, OutOfMemory>
    ensures { IfOk result (λ v. v.items ≡ map (λ c. c.step) changes.now) }
{
    let mut steps = Vec::with_capacity(alloc, changes.len())?;
    for change in changes {
        steps.push_reserved(change.step);
    }
    Ok(steps)
}

fn id_on(side: Side, change: &Change) -> u32
    ensures { result ≡ id_on side change.now }
{
    match side {
        Side::Left => change.left,
        Side::Right => change.right,
    }
}

// The ids of the rows of a side.
fn ids_on(alloc: Global, side: Side, changes: &[Change]) -> Result<Vec<u32>, OutOfMemory>
    ensures { IfOk result (λ v. v.items ≡ map (id_on side) changes.now) }
{
    let mut ids = Vec::with_capacity(alloc, changes.len())?;
    for change in changes {
        ids.push_reserved(id_on(side, change));
    }
    Ok(ids)
}

// How many of the first changes all come, or all go.
fn count_alike(comes: bool, changes: &[Change]) -> usize
    ensures within { result ≤ length changes.now }
    ensures alike { map sign_cell (take result changes.now)
        ≡ replicate result (Some (sign_of comes)) }
{
    let mut count = 0;
    for change in changes {
        if change.comes != comes {
            return count;
        }
        count += 1;
    }
    count
}

// The signs of the changes. Those of changes that are alike are put at once.
fn sign_chunk(alloc: Global, changes: &[Change]) -> Result<StringChunk, OutOfMemory>
    ensures texts { IfOk result (λ c. texts_of c ≡ map sign_cell changes.now) }
    ensures typed { IfOk result (λ c.
        All (HasType kind.string) (⟦<StringChunk as Chunk>⟧.shown c)) }
{
    let mut signs = StringBuilder::with_capacity(alloc, changes.len())?;
    let mut rest = changes;
    while let Some((first, behind)) = rest.split_first() {
        let more = count_alike(first.comes, behind);
        signs.push_times(alloc, sign_of(first.comes), more + 1)?;
        rest = &behind[more..];
    }
    signs.finish(alloc)
}

// The only chunk of a column.
fn chunks_of(alloc: Global, column: ChangeColumn, changes: &[Change]) -> Result<Chunks, OutOfMemory>
    ensures lists { IfOk result (λ c.
        chunk_lists c ≡ map (value_at column) (changes_of changes.now) ∷ []) }
    ensures storage { IfOk result (λ c. storage c ≡ physical (kind_at column)) }
{
    match column {
        ChangeColumn::Step => {
            let steps = Cells::from_vec(alloc, step_numbers(alloc, changes)?);
            Ok(Chunks::UInt64Type(vec![in alloc; steps]?))
        }
        ChangeColumn::Sign => {
            let signs = sign_chunk(alloc, changes)?;
            Ok(Chunks::StringType(vec![in alloc; signs]?))
        }
        ChangeColumn::Left => {
            let ids = Cells::from_vec(alloc, ids_on(alloc, Side::Left, changes)?);
            Ok(Chunks::UInt32Type(vec![in alloc; ids]?))
        }
        ChangeColumn::Right => {
            let ids = Cells::from_vec(alloc, ids_on(alloc, Side::Right, changes)?);
            Ok(Chunks::UInt32Type(vec![in alloc; ids]?))
        }
    }
}

fn column_at(alloc: Global, column: ChangeColumn, changes: &[Change]) -> Result<Column, OutOfMemory>
    requires { length changes.now ≤ MAX_ROWS }
    ensures { IfOk result (λ c. plain_column c ≡ column_at column (changes_of changes.now)) }
{
    let chunks = chunks_of(alloc, column, changes)?;
    let name = PlSmallStr::from_str(alloc, name_at(column))?;
    let series = Series::from_parts(name, type_at(column), chunks, IsSorted::Not);
    Ok(series.into_column())
}

fn changes_columns(alloc: Global, changes: &[Change]) -> Result<Vec<Column>, OutOfMemory>
    requires { length changes.now ≤ MAX_ROWS }
    ensures { IfOk result (λ v. table_of v.items ≡ changes_table (changes_of changes.now)) }
{
    let step = column_at(alloc, ChangeColumn::Step, changes)?;
    let sign = column_at(alloc, ChangeColumn::Sign, changes)?;
    let left = column_at(alloc, ChangeColumn::Left, changes)?;
    let right = column_at(alloc, ChangeColumn::Right, changes)?;
    Ok(vec![in alloc; step, sign, left, right]?)
}

fn changes_table(alloc: Global, changes: &[Change]) -> Result<DataFrame, OutOfMemory>
    requires { length changes.now ≤ MAX_ROWS }
    ensures { IfOk result (λ t. table_of t ≡ changes_table (changes_of changes.now)) }
{
    let columns = changes_columns(alloc, changes)?;
    only_memory(DataFrame::new(alloc, columns))
}

/// The text of what steps change, which is let go.
pub(crate) fn changes_text(
    rt: &(impl Threads + Sync),
    alloc: Global,
    changes: Vec<Change>,
    options: &TextOptions,
) -> Result<Text, FrontFault>
    ensures { Gives (λ t. t) result
        (due.changes_text options.now (changes_of changes.items)) }
{
    if changes.len() > MAX_ROWS {
        let cause = ComputeCause::TooManyRows;
        return Err(FrontFault::Refused(PolarsError::ComputeError(cause)));
    }
    let table = changes_table(alloc, &changes)?;
    drop(changes);
    text_of_table(rt, alloc, options.form, options.csv.separator, table)
}
