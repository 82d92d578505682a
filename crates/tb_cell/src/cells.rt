//! Optional values of one type.
ghost use Rattle.std.specs.Prelude.{◌≡◌, ◌<◌, ◌≤◌, ◌+◌, ◌^◌, ◌++◌, ◌∷◌, [], if◌then◌else◌, IfOk, OnOk, OnErr, Some, None, MatchOption, is_none, length, get_or, map, take, drop};
ghost use Rattle.std.specs.List.{Contains, count_by, list_any};
ghost use Rattle.std.specs.Option.{option_map};
ghost use Rattle.tb_value.specs.See.{datum};
ghost use Rattle.tb_cell.specs.Fits.{Fits};
ghost use Rattle.tb_cell.specs.Shown.{block_len, or_null};

use crate::cell::Cell;
use std::alloc::Global;
use std::marker::Model;
use tb_value::{AnyValue, OutOfMemory};

/// Optional values, of which `None` is Null. Up to the first Null they are stored as they are, and from it on each with a mark.
#[derive(Drop)]
pub struct Cells<N> {
    values: Vec<N>,
    rest: Vec<Option<N>>,
}

impl<N> Model for Cells<N> {
    ghost use Rattle.std.specs.Prelude.{◌≡◌, ◌+◌, ◌<◌, ◌^◌, ◌++◌, List, Option, Some, None, map, length, get_or};

    ghost Value = { List (Option N) };

    ghost view = { λ c. map Some c.values.items ++ c.rest.items };

    ghost invariant = { λ c. (get_or c.rest.items 0 None ≡ None) × (length c.values.items + length c.rest.items < 2 ^ 64) };
}

impl<N: Drop> Cells<N> {
    /// No value.
    pub fn new(alloc: Global) -> Cells<N>
        ensures { result ≡ [] }
    {
        Cells {
            values: Vec::new(alloc),
            rest: Vec::new(alloc),
        }
    }

    /// No value, with room for as many as are given.
    pub fn with_capacity(alloc: Global, rows: usize) -> Result<Cells<N>, OutOfMemory>
        ensures { IfOk result (λ c. c ≡ []) }
    {
        Ok(Cells {
            values: Vec::with_capacity(alloc, rows)?,
            rest: Vec::new(alloc),
        })
    }

    /// These values, none of which is Null. It takes no memory.
    pub fn from_vec(alloc: Global, values: Vec<N>) -> Cells<N>
        ensures { result ≡ map Some values.items }
    {
        Cells {
            values,
            rest: Vec::new(alloc),
        }
    }

    /// The number of values, nulls too.
    pub fn len(&self) -> usize
        ensures { result ≡ length self.now }
    {
        self.values.len() + self.rest.len()
    }

    /// The value of a row, none where it is Null.
    pub fn get(&self, row: usize) -> Option<&N>
        requires { row < length self.now }
        ensures { option_map (λ x. x.now) result ≡ get_or self.now row None }
    {
        if row < self.values.len() {
            return Some(&self.values[row]);
        }
        self.rest[row - self.values.len()].as_ref()
    }

    /// The values, where no row is Null.
    pub fn as_values(&self) -> Option<&[N]>
        ensures { MatchOption result (Contains self.now None) (λ v. self.now ≡ map Some v.now) }
    {
        if self.rest.is_empty() {
            Some(self.values.as_slice())
        } else {
            None
        }
    }

    /// The number of nulls.
    pub fn none_count(&self) -> usize
        ensures { result ≡ count_by is_none self.now }
    {
        absent_in(&self.rest)
    }

    /// Appends a value, or a Null. After a refusal the values are as they were.
    ///
    /// # Errors
    ///
    /// OutOfMemory.
    pub fn push(&mut self, cell: Option<N>) -> Result<(), OutOfMemory>
        ensures ok { OnOk result (self.new ≡ self.old ++ cell ∷ []) }
        ensures err { OnErr result (self.new ≡ self.old) }
    {
        if self.len() == usize::MAX {
            return Err(OutOfMemory);
        }
        match cell {
            Some(value) if self.rest.is_empty() => self.values.push(value)?,
            cell => {
                let room = self.values.capacity().saturating_sub(self.values.len());
                make_room(&mut self.rest, room)?;
                self.rest.push(cell)?;
            }
        }
        Ok(())
    }
}

impl<N: Cell> Cells<N> {
    /// Appends the values of another's rows from `from` on, up to so many and up to its first Null, where there is no Null here yet,
    /// and tells how many these are. After a refusal some of them may stand there.
    ///
    /// # Errors
    ///
    /// OutOfMemory.
    pub fn append_values(
        &mut self,
        alloc: Global,
        other: &Cells<N>,
        from: usize,
        count: usize,
    ) -> Result<usize, OutOfMemory>
        requires room { length self.old + count < 2 ^ 64 }
        requires within { from + count ≤ length other.now }
        ensures count { IfOk result (λ n. n ≤ count) }
        ensures exact { IfOk result (λ n.
            n ≡ (if list_any is_none self.old then 0 else block_len other.now from count)) }
        ensures shown { IfOk result (λ n. map (or_null N.shows) self.new
            ≡ map (or_null N.shows) self.old ++ take n (drop from (map (or_null N.shows) other.now))) }
    {
        let rest = self.rest.as_slice();
        let values = other.values.as_slice();
        if rest.len() > 0 || from >= values.len() {
            return Ok(0);
        }
        let end = values.len().min(from + count);
        N::append_copies(alloc, &mut self.values, &values[from..end])?;
        Ok(end - from)
    }
}

// The room that the values before the first Null leave is made behind it.
fn make_room<N>(rest: &mut Vec<Option<N>>, room: usize) -> Result<(), OutOfMemory>
    ensures { rest.new.items ≡ rest.old.items }
{
    if rest.is_empty() {
        rest.reserve_exact(room)?;
    }
    Ok(())
}

fn absent_in<N>(cells: &[Option<N>]) -> usize
    ensures { result ≡ count_by is_none cells.now }
{
    cells.iter().filter(|cell| cell.is_none()).count()
}

/// The cell of a value that the column can hold, none of Null.
pub fn cell_of<N: Cell>(alloc: Global, value: &AnyValue) -> Result<Option<N>, OutOfMemory>
    requires { Fits N.kind (datum value.now) }
    ensures { IfOk result (λ c. or_null N.shows c ≡ datum value.now) }
{
    match value {
        AnyValue::Null => Ok(None),
        _ => Ok(Some(N::from_value(alloc, value)?)),
    }
}

/// A cell of the same value, none where there is none.
pub fn copy_cell<N: Cell>(alloc: Global, cell: Option<&N>) -> Result<Option<N>, OutOfMemory>
    ensures { IfOk result (λ c.
        or_null N.shows c ≡ or_null N.shows (option_map (λ x. x.now) cell.entry)) }
{
    match cell {
        None => Ok(None),
        Some(cell) => Ok(Some(cell.copy(alloc)?)),
    }
}
