//! The rows of a piece of a text, read in parts of it.
ghost use Rattle.std.specs.Prelude.{◌≡◌, ◌<◌, ◌++◌, ◌∷◌, ℕ, List, [], IfOk, OnOk, if◌then◌else◌, length};
ghost use Rattle.tb_csv.specs.Promise.Records.{Record};
ghost use Rattle.tb_csv.specs.Read.{AreAppended, AreRunsFrom, HaveRows};

use crate::cuts::cut;
use crate::fault::CsvFault;
use crate::field_column::FieldColumn;
use crate::marks::has_quote;
use crate::run::{BYTES_OF_A_COLUMN, Run, RunFields, run_of};
use std::alloc::Global;
use tb_value::OutOfMemory;

// A part of so many bytes is read at once, and of more where it has many columns, or quotes, in which no part may end.
const LEAST_OF_A_PART: usize = 65_536;

const MOST_OF_A_PART: usize = 262_144;

// How many bytes a part of a piece has at least, of rows of so many fields.
fn bytes_of_a_part(piece: &[u8], width: usize) -> usize
    ensures { 0 < result }
{
    if has_quote(piece) {
        MOST_OF_A_PART
    } else {
        width
            .saturating_mul(BYTES_OF_A_COLUMN)
            .clamp(LEAST_OF_A_PART, MOST_OF_A_PART)
    }
}

// Appends to each column the one of the same place.
fn append_columns(
    alloc: Global,
    columns: &mut Vec<FieldColumn>,
    others: &[FieldColumn],
) -> Result<(), OutOfMemory>
    requires { length others.now ≡ length columns.old.items }
    ensures { OnOk result (AreAppended columns.old.items others.now columns.new.items) }
{
    for (place, column) in columns.iter_mut().enumerate() {
        column.append(alloc, &others[place])?;
    }
    Ok(())
}

impl Run {
    // Appends the rows of another run, where both stand column by column. Tells whether it did.
    fn append(&mut self, alloc: Global, other: &Run) -> Result<bool, OutOfMemory>
        ensures { (width : ℕ) (rows more : List Record) → HaveRows width (self.old ∷ []) rows
            → HaveRows width (other.now ∷ []) more → IfOk result (λ is_done.
            HaveRows width (self.new ∷ []) (if is_done then rows ++ more else rows)) }
    {
        let Some(height) = self.height.checked_add(other.height) else {
            return Ok(false);
        };
        let RunFields::Columns(others) = &other.fields else {
            return Ok(false);
        };
        let RunFields::Columns(columns) = &mut self.fields else {
            return Ok(false);
        };
        if others.len() != columns.len() {
            return Ok(false);
        }
        append_columns(alloc, columns, others)?;
        self.height = height;
        Ok(true)
    }
}

// Puts the rows of a run behind those of others, in the last of these where they can stand there.
fn push_run(alloc: Global, runs: &mut Vec<Run>, run: Run) -> Result<(), OutOfMemory>
    ensures { (width : ℕ) (rows more : List Record) → HaveRows width runs.old.items rows
        → HaveRows width (run ∷ []) more → OnOk result
        (HaveRows width runs.new.items (rows ++ more)) }
{
    if let Some(mut last) = runs.pop() {
        let is_done = last.append(alloc, &run)?;
        runs.push(last)?;
        if is_done {
            return Ok(());
        }
    }
    Ok(runs.push(run)?)
}

/// The rows of a piece of a text from the end of a line on, which has no names, or a fault of it. It is read in parts, and those that
/// stand column by column become one run: many short lists would stay with the allocator when they are let go.
pub(crate) fn runs_of(
    alloc: Global,
    piece: &[u8],
    separator: u8,
    width: usize,
) -> Result<Vec<Run>, CsvFault>
    ensures { IfOk result (λ v. AreRunsFrom separator width piece.now v.items) }
{
    let least = bytes_of_a_part(piece, width);
    let mut runs = Vec::new(alloc);
    let mut rest = piece;
    while !rest.is_empty() {
        let (part, behind) = cut(rest, least);
        push_run(alloc, &mut runs, run_of(alloc, part, separator, width)?)?;
        rest = behind;
    }
    Ok(runs)
}
