//! The columns of the answer, from what the parts give.
ghost use Rattle.std.specs.Prelude.{◌≡◌, ◌<◌, ◌≤◌, ◌∷◌, [], ◌++◌, OnOk, IfOk, length, map};
ghost use Rattle.std.specs.List.{All};
ghost use Rattle.tb_value.specs.Promise.Pairs.{row_numbers};
ghost use Rattle.tb_value.specs.Promise.Refusals.{first_cause};
ghost use Rattle.tb_value.specs.Refusals.{Settles};
ghost use Rattle.tb_value.specs.declared.limits.TheConstants.{MAX_ROWS};
ghost use Rattle.tb_chunk.specs.Lent.{lent_columns};
ghost use Rattle.tb_chunk.specs.Promise.Col.{values};
ghost use Rattle.tb_frame.specs.Frame.{taken_rows};
ghost use Rattle.tb_frame.specs.Promise.Table.{plain_column, table_of};
ghost use Rattle.tb_agg.specs.Kept.{kept_at, kept_len, shown_kept};
ghost use Rattle.tb_group.specs.Asked.{asked_as, asked_list};
ghost use Rattle.tb_group.specs.Parts.{shown_part};
ghost use Rattle.tb_group.specs.Whole.{all_firsts, cause_at, gathered, made_cause, made_column, placed_at, AreWholeAt, CanBeMade};

use crate::lookup::AskedColumn;
use crate::part::PartGroups;
use crate::request::GroupAgg;
use std::alloc::Global;
use tb_agg::{Aggregate, Kept};
use tb_store::{Column, Series};
use tb_value::{ComputeCause, IdxSize, MAX_ROWS, OutOfMemory, PolarsError, PolarsResult};

/// The first rows of the groups of all parts, one part after another.
pub(crate) fn all_firsts(alloc: Global, parts: &[PartGroups]) -> Result<Vec<IdxSize>, OutOfMemory>
    ensures { IfOk result (λ v. v.items ≡ all_firsts (map shown_part parts.now)) }
{
    let mut firsts = Vec::new(alloc);
    for part in parts {
        firsts.extend_from_slice(part.firsts())?;
    }
    Ok(firsts)
}

// These rows of each column.
fn columns_at(
    alloc: Global,
    columns: &[&Series],
    rows: &[IdxSize],
) -> Result<Vec<Column>, OutOfMemory>
    requires rows { All (λ c. All (λ r. r < length (values c.now)) rows.now) columns.now }
    requires few { length rows.now ≤ MAX_ROWS }
    ensures { IfOk result (λ v. v.items ≡ map (taken_rows rows.now) (lent_columns columns.now)) }
{
    let mut taken = Vec::with_capacity(alloc, columns.len())?;
    for column in columns {
        taken.push(column.take(alloc, rows)?.into_column())?;
    }
    Ok(taken)
}

/// These rows of the columns by which a table is grouped, and then the columns that were made.
pub(crate) fn answer_columns(
    alloc: Global,
    by: &[&Series],
    rows: &[IdxSize],
    made: Vec<Column>,
) -> Result<Vec<Column>, OutOfMemory>
    requires rows { All (λ c. All (λ r. r < length (values c.now)) rows.now) by.now }
    requires few { length rows.now ≤ MAX_ROWS }
    ensures { IfOk result (λ v.
        v.items ≡ map (taken_rows rows.now) (lent_columns by.now) ++ made.items) }
{
    let mut made = made;
    let mut columns = columns_at(alloc, by, rows)?;
    columns.append(&mut made)?;
    Ok(columns)
}

// What all parts keep of the groups for the aggregate that has this seat, one part after another, in room for so many.
fn gathered(
    alloc: Global,
    parts: &[PartGroups],
    agg: Aggregate,
    seat: usize,
    groups: usize,
) -> Result<Kept, OutOfMemory>
    requires { All (λ p. seat < length p.kept.items) parts.now }
    ensures { IfOk result (λ k. shown_kept k ≡ gathered agg seat (map shown_part parts.now)) }
{
    let mut kept = Kept::with_capacity(alloc, agg, groups)?;
    for part in parts {
        kept.append(alloc, &part.kept()[seat])?;
    }
    Ok(kept)
}

// What all parts keep for the aggregate that has this seat, of the groups at these places. What is kept of all is let go.
fn placed(
    alloc: Global,
    parts: &[PartGroups],
    agg: Aggregate,
    seat: usize,
    places: &[IdxSize],
) -> Result<Kept, OutOfMemory>
    requires there { All (λ p. seat < length p.kept.items) parts.now }
    requires within { All
        (λ p. p < kept_len (gathered agg seat (map shown_part parts.now)))
        places.now }
    ensures { IfOk result (λ k.
        shown_kept k ≡ kept_at places.now (gathered agg seat (map shown_part parts.now))) }
{
    let all = gathered(alloc, parts, agg, seat, places.len())?;
    all.take(alloc, places)
}

// The column that is asked for, of the aggregate that is made for it at this seat, for the groups at these places. Refuses
// a sum out of range (SumRange).
fn agg_column(
    alloc: Global,
    asked: &GroupAgg,
    made: &AskedColumn<'_>,
    seat: usize,
    parts: &[PartGroups],
    places: &[IdxSize],
) -> PolarsResult<Column>
    requires { CanBeMade places.now (asked_as made.now) seat (map shown_part parts.now) }
    ensures settles { Settles result
        (made_cause asked.now.column (asked_as made.now) seat (map shown_part parts.now)
        places.now) }
    ensures column { IfOk result (λ c.
        plain_column c
        ≡ made_column asked.now.name (asked_as made.now) seat (map shown_part parts.now)
        places.now) }
{
    let kept = placed(alloc, parts, made.asked.agg, seat, places)?;
    match kept.column(alloc, made.column, asked.name.copy(alloc)?)? {
        Some(column) => Ok(column.into_column()),
        None => {
            let source = asked.column.copy(alloc)?;
            Err(PolarsError::ComputeError(ComputeCause::SumRange(source)))
        }
    }
}

// Puts a column behind others.
fn push_column(columns: &mut Vec<Column>, column: Column) -> Result<(), OutOfMemory>
    ensures { OnOk result (columns.new.items ≡ columns.old.items ++ column ∷ []) }
{
    columns.push(column)?;
    Ok(())
}

/// The columns of all aggregates that are asked for, each from what the parts keep of the one that is made for it, which
/// has its seat among these. Refuses the first of which a sum is out of range (SumRange).
pub(crate) fn agg_columns(
    alloc: Global,
    asked: &[AskedColumn<'_>],
    made: &[AskedColumn<'_>],
    seats: &[usize],
    parts: &[PartGroups],
    places: &[IdxSize],
) -> PolarsResult<Vec<Column>>
    requires long { length seats.now ≡ length asked.now }
    requires whole { AreWholeAt (asked_list made.now) seats.now (map shown_part parts.now)
        places.now }
    ensures settles { Settles result
        (first_cause
        (map
        (cause_at (asked_list asked.now) (asked_list made.now) seats.now
        (map shown_part parts.now) places.now)
        (row_numbers (length asked.now)))) }
    ensures columns { IfOk result (λ v.
        table_of v.items
        ≡ map
        (placed_at (asked_list asked.now) (asked_list made.now) seats.now
        (map shown_part parts.now) places.now)
        (row_numbers (length asked.now))) }
{
    let mut columns = Vec::new(alloc);
    for place in 0..asked.len() {
        let seat = seats[place];
        let one = &asked[place];
        let column = agg_column(alloc, one.asked, &made[seat], seat, parts, places)?;
        push_column(&mut columns, column)?;
    }
    Ok(columns)
}
