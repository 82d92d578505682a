//! The sums of groups.
ghost use Rattle.std.specs.Prelude.{◌≡◌, ◌≤ℤ◌, ◌+ℤ◌, ◌<◌, ◌++◌, [], pos, neg_ℤ, false, All, IfOk, IfSome, MatchOption, OnOk, length, map, slice_index_or};
ghost use Rattle.tb_value.specs.See.{lent_value};
ghost use Rattle.tb_value.specs.Promise.Kind as kind;
ghost use Rattle.tb_value.specs.Promise.Typed.{ends};
ghost use Rattle.tb_chunk.specs.Promise.Col.{values};
ghost use Rattle.tb_rows.specs.Names.{name_of};
ghost use Rattle.tb_rows.specs.Promise.Rows.{row_value};
ghost use Rattle.tb_agg.specs.Promise.Aggregates.{number, total};
ghost use Rattle.tb_agg.specs.Promise.Outcome.{lies_within};
ghost use Rattle.tb_agg.specs.Grouped.{rows_by_group, AreGroupsOf};
ghost use Rattle.tb_agg.specs.Kept.{items_at};
ghost use Rattle.tb_agg.specs.Named.{AreRowsOf};
ghost use Rattle.tb_agg.specs.Running.{sum_so_far};
ghost use Rattle.tb_agg.specs.Sums.{shown_sums};

use crate::places::items_at;
use crate::running::{Running, plus};
use std::alloc::Global;
use tb_rows::{Groups, RowNames};
use tb_store::Series;
use tb_value::{IdxSize, OutOfMemory, ValueRef};

/// The exact sums of groups: in 64 bits each where these hold all sums on the way, and else in parts.
#[derive(Drop)]
pub(crate) enum Sums {
    Narrow(Vec<i64>),
    Wide(Vec<Running>),
}

fn number(value: ValueRef<'_>) -> i128
    ensures { result ≡ number (lent_value value.entry) }
{
    match value {
        ValueRef::Boolean(true) => 1,
        ValueRef::Int(i) => i,
        _ => 0,
    }
}

// The sum, where it is one of 64 bits.
fn plus_narrow(sum: i64, value: ValueRef<'_>) -> Option<i64>
    ensures { MatchOption result
        (lies_within (ends kind.int64) (sum +ℤ number (lent_value value.entry)) ≡ false)
        (λ s. s ≡ sum +ℤ number (lent_value value.entry)) }
{
    let sum = number(value).checked_add(sum as i128)?;
    i64::try_from(sum).ok()
}

fn plus_value(running: Running, value: ValueRef<'_>) -> Running
    requires down { neg_ℤ (pos 4294967296) ≤ℤ running.wraps }
    requires up { running.wraps ≤ℤ pos 4294967296 }
    ensures total { sum_so_far result ≡ sum_so_far running +ℤ number (lent_value value.entry) }
    ensures from { running.wraps ≤ℤ (result.wraps +ℤ pos 1) }
    ensures to { result.wraps ≤ℤ (running.wraps +ℤ pos 1) }
{
    plus(running, number(value))
}

// The sum of each group, of rows that are named, and none where a sum on the way is not one of 64 bits.
fn narrow_sums(
    alloc: Global,
    column: &Series,
    names: RowNames<'_>,
    groups: &Groups,
) -> Result<Option<Vec<i64>>, OutOfMemory>
    requires rows { AreRowsOf names (length groups.now.numbers.items) (length (values column.now)) }
    requires groups { AreGroupsOf (length groups.now.numbers.items) groups.now }
    ensures { IfOk result (λ o. IfSome o (λ v. v.items
        ≡ map (λ rows. total (map (row_value (values column.now)) rows))
        (rows_by_group (name_of names.entry) groups.now))) }
{
    let numbers = groups.numbers();
    let mut sums = vec![in alloc; 0i64; groups.firsts().len()]?;
    for place in 0..numbers.len() {
        let group = numbers[place] as usize;
        let row = names.name(place) as usize;
        match plus_narrow(sums[group], column.get(row)) {
            Some(sum) => sums[group] = sum,
            None => return Ok(None),
        }
    }
    Ok(Some(sums))
}

// The same, whatever the sums on the way are.
fn wide_sums(
    alloc: Global,
    column: &Series,
    names: RowNames<'_>,
    groups: &Groups,
) -> Result<Vec<Running>, OutOfMemory>
    requires rows { AreRowsOf names (length groups.now.numbers.items) (length (values column.now)) }
    requires groups { AreGroupsOf (length groups.now.numbers.items) groups.now }
    ensures { IfOk result (λ v. map sum_so_far v.items
        ≡ map (λ rows. total (map (row_value (values column.now)) rows))
        (rows_by_group (name_of names.entry) groups.now)) }
{
    let numbers = groups.numbers();
    let zero = Running { low: 0, wraps: 0 };
    let mut sums = vec![in alloc; zero; groups.firsts().len()]?;
    for place in 0..numbers.len() {
        let group = numbers[place] as usize;
        let row = names.name(place) as usize;
        sums[group] = plus_value(sums[group], column.get(row));
    }
    Ok(sums)
}

// Puts sums of 64 bits behind sums in parts.
fn push_narrow(wide: &mut Vec<Running>, sums: &[i64]) -> Result<(), OutOfMemory>
    ensures { OnOk result
        (map sum_so_far wide.new.items ≡ map sum_so_far wide.old.items ++ sums.now) }
{
    for sum in sums {
        wide.push(Running::of(*sum))?;
    }
    Ok(())
}

impl Sums {
    /// No sum, with room for as many as are given.
    pub(crate) fn with_capacity(alloc: Global, groups: usize) -> Result<Sums, OutOfMemory>
        ensures { IfOk result (λ s. shown_sums s ≡ []) }
    {
        Ok(Sums::Narrow(Vec::with_capacity(alloc, groups)?))
    }

    /// The sum of each group, of rows that are named.
    pub(crate) fn of(
        alloc: Global,
        column: &Series,
        names: RowNames<'_>,
        groups: &Groups,
    ) -> Result<Sums, OutOfMemory>
        requires rows { AreRowsOf names (length groups.now.numbers.items)
            (length (values column.now)) }
        requires groups { AreGroupsOf (length groups.now.numbers.items) groups.now }
        ensures { IfOk result (λ s. shown_sums s
            ≡ map (λ rows. total (map (row_value (values column.now)) rows))
            (rows_by_group (name_of names.entry) groups.now)) }
    {
        match narrow_sums(alloc, column, names, groups)? {
            Some(sums) => Ok(Sums::Narrow(sums)),
            None => Ok(Sums::Wide(wide_sums(alloc, column, names, groups)?)),
        }
    }

    /// How many sums there are.
    pub(crate) fn len(&self) -> usize
        ensures { result ≡ length (shown_sums self.now) }
    {
        match self {
            Sums::Narrow(sums) => sums.len(),
            Sums::Wide(sums) => sums.len(),
        }
    }

    /// The sum at a place.
    pub(crate) fn get(&self, place: usize) -> Running
        requires { place < length (shown_sums self.now) }
        ensures { sum_so_far result ≡ slice_index_or (shown_sums self.now) place (pos 0) }
    {
        match self {
            Sums::Narrow(sums) => Running::of(sums[place]),
            Sums::Wide(sums) => sums[place],
        }
    }

    /// Puts other sums behind these.
    pub(crate) fn append(&mut self, alloc: Global, other: &Sums) -> Result<(), OutOfMemory>
        ensures { OnOk result (shown_sums self.new ≡ shown_sums self.old ++ shown_sums other.now) }
    {
        match self {
            Sums::Narrow(sums) => match other {
                Sums::Narrow(more) => sums.extend_from_slice(more)?,
                Sums::Wide(more) => {
                    let mut wide = Vec::with_capacity(alloc, sums.capacity())?;
                    push_narrow(&mut wide, sums)?;
                    wide.extend_from_slice(more)?;
                    *self = Sums::Wide(wide);
                }
            },
            Sums::Wide(sums) => match other {
                Sums::Narrow(more) => push_narrow(sums, more)?,
                Sums::Wide(more) => sums.extend_from_slice(more)?,
            },
        }
        Ok(())
    }

    /// The sums at these places.
    pub(crate) fn take(&self, alloc: Global, places: &[IdxSize]) -> Result<Sums, OutOfMemory>
        requires { All (λ p. p < length (shown_sums self.now)) places.now }
        ensures { IfOk result (λ s.
            shown_sums s ≡ items_at (pos 0) (shown_sums self.now) places.now) }
    {
        match self {
            Sums::Narrow(sums) => Ok(Sums::Narrow(items_at(alloc, sums, places)?)),
            Sums::Wide(sums) => Ok(Sums::Wide(items_at(alloc, sums, places)?)),
        }
    }
}
