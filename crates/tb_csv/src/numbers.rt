//! Whole numbers, in place of the fields that are written so.
ghost use Rattle.std.specs.Prelude.{◌≡◌, ◌<◌, ◌++◌, ◌∷◌, [], IfOk, IfSome, OnOk, Some, length, map, slice_index_or};
ghost use Rattle.tb_value.specs.Promise.Datum.{int, null};
ghost use Rattle.tb_chunk.specs.Chunk.{or_null};
ghost use Rattle.tb_csv.specs.Numbers.{number_field, number_fields, numbers_in};
ghost use Rattle.tb_csv.specs.Read.{lent_field};

use crate::digits::short_number;
use crate::lines::utf8_text;
use std::alloc::Global;
use tb_label::whole_in;
use tb_store::Cells;
use tb_value::OutOfMemory;

/// Whole numbers, none of which takes more bits than it needs. None is an absent field.
#[derive(Drop)]
pub(crate) enum Numbers {
    Narrow(Cells<i32>),
    Wide(Cells<i64>),
}

fn widened(number: Option<&i32>) -> Option<i64>
    ensures { or_null int result ≡ or_null (λ n. int n.now) number.entry }
{
    match number {
        Some(number) => Some(i64::from(*number)),
        None => None,
    }
}

// The number in fewer bits, where it has no more.
fn narrow(number: Option<i64>) -> Option<Option<i32>>
    ensures { IfSome result (λ n. or_null int n ≡ or_null int number) }
{
    match number {
        Some(number) => match i32::try_from(number) {
            Ok(number) => Some(Some(number)),
            Err(_) => None,
        },
        None => Some(None),
    }
}

// The same numbers in more bits.
fn wide_cells(alloc: Global, narrow: &Cells<i32>) -> Result<Cells<i64>, OutOfMemory>
    ensures { IfOk result (λ c. map (or_null int) c ≡ map (or_null int) narrow.now) }
{
    let mut cells = Cells::with_capacity(alloc, narrow.len())?;
    for row in 0..narrow.len() {
        cells.push(widened(narrow.get(row)))?;
    }
    Ok(cells)
}

impl Numbers {
    /// No numbers, with room for so many.
    pub(crate) fn with_capacity(alloc: Global, rows: usize) -> Result<Numbers, OutOfMemory>
        ensures { IfOk result (λ n. numbers_in n ≡ []) }
    {
        Ok(Numbers::Narrow(Cells::with_capacity(alloc, rows)?))
    }

    /// Appends a number, or an absent field.
    pub(crate) fn push(&mut self, alloc: Global, number: Option<i64>) -> Result<(), OutOfMemory>
        ensures { OnOk result
            (numbers_in self.new ≡ numbers_in self.old ++ or_null int number ∷ []) }
    {
        match self {
            Numbers::Narrow(cells) => match narrow(number) {
                Some(number) => cells.push(number)?,
                None => {
                    let mut wide = wide_cells(alloc, cells)?;
                    wide.push(number)?;
                    *self = Numbers::Wide(wide);
                }
            },
            Numbers::Wide(cells) => cells.push(number)?,
        }
        Ok(())
    }

    /// How many rows there are.
    pub(crate) fn len(&self) -> usize
        ensures { result ≡ length (numbers_in self.now) }
    {
        match self {
            Numbers::Narrow(cells) => cells.len(),
            Numbers::Wide(cells) => cells.len(),
        }
    }

    /// Appends the numbers of another column.
    pub(crate) fn append(&mut self, alloc: Global, other: &Numbers) -> Result<(), OutOfMemory>
        ensures { OnOk result
            (numbers_in self.new ≡ numbers_in self.old ++ numbers_in other.now) }
    {
        for row in 0..other.len() {
            self.push(alloc, other.get(row))?;
        }
        Ok(())
    }

    /// The number of this row.
    pub(crate) fn get(&self, row: usize) -> Option<i64>
        requires { row < length (numbers_in self.now) }
        ensures { or_null int result ≡ slice_index_or (numbers_in self.now) row null }
    {
        match self {
            Numbers::Narrow(cells) => widened(cells.get(row)),
            Numbers::Wide(cells) => cells.get(row).copied(),
        }
    }
}

// The whole number that the bytes write, where it has at most 64 bits.
#[tactic(auto, using(crate::proofs::NumberWalks::number_read))]
fn long_number(bytes: &[u8]) -> Option<i64>
    ensures { IfSome result (λ n. number_field (int n) ≡ Some bytes.now) }
{
    i64::try_from(whole_in(utf8_text(bytes)?)?).ok()
}

fn whole_number(bytes: &[u8]) -> Option<i64>
    ensures { IfSome result (λ n. number_field (int n) ≡ Some bytes.now) }
{
    match short_number(bytes) {
        Some(number) => Some(number),
        None => long_number(bytes),
    }
}

/// The whole number that the field is, or that it is absent. None where it is neither, or a number of more than 64 bits.
pub(crate) fn number_in(field: Option<&[u8]>) -> Option<Option<i64>>
    ensures { IfSome result (λ n. number_field (or_null int n) ≡ lent_field field.entry) }
{
    match field {
        Some(bytes) => Some(Some(whole_number(bytes)?)),
        None => Some(None),
    }
}
