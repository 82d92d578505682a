//! Columns whose names other columns have.
ghost use Rattle.std.specs.Prelude.{◌≡◌, length, map, IfOk};
ghost use Rattle.std.specs.List.{find};
ghost use Rattle.tb_tree.specs.View.{item_view, listed};
ghost use Rattle.tb_value.specs.Promise.Pairs.{row_numbers};
ghost use Rattle.tb_frame.specs.Promise.Refusal.{repeats};
ghost use Rattle.tb_why.specs.Columns.{name_at, name_spot};
ghost use Rattle.tb_why.specs.Spots.{Finds};

use crate::spot::{Expected, Spot, here, under_index, under_member};
use crate::tree::{Tree, Trees, member, text};
use std::alloc::Global;
use tb_frame::NameSet;
use tb_value::{OutOfMemory, PlSmallStr};

fn name_at(column: Tree<'_>) -> &str
    ensures { result.now ≡ name_at (item_view column.entry) }
{
    match member(column, "name") {
        Some(name) => text(name).unwrap_or(""),
        None => "",
    }
}

fn names_of(alloc: Global, columns: Trees<'_>) -> Result<Vec<PlSmallStr>, OutOfMemory>
    ensures { IfOk result (λ v. v.items ≡ map name_at (listed columns.entry)) }
{
    let mut names = Vec::with_capacity(alloc, columns.len())?;
    for i in 0..columns.len() {
        names.push(PlSmallStr::from_str(alloc, name_at(columns.at(i)))?)?;
    }
    Ok(names)
}

// The place of the first name that stands before it too.
fn first_repeat(alloc: Global, names: &[PlSmallStr]) -> Result<Option<usize>, OutOfMemory>
    ensures { IfOk result (λ o. o ≡ find (repeats names.now) (row_numbers (length names.now))) }
{
    let mut seen = NameSet::new(alloc);
    for (i, name) in names.iter().enumerate() {
        if !seen.insert(name)? {
            return Ok(Some(i));
        }
    }
    Ok(None)
}

/// The first column that has the name of one before it.
pub(crate) fn name_spot(alloc: Global, columns: Trees<'_>) -> Result<Option<Spot>, OutOfMemory>
    ensures { Finds result (name_spot (listed columns.entry)) }
{
    let names = names_of(alloc, columns)?;
    match first_repeat(alloc, &names)? {
        Some(i) => {
            let name = under_member(alloc, "name", Some(here(alloc, Expected::OtherName)))?;
            under_index(i, name)
        }
        None => Ok(None),
    }
}
