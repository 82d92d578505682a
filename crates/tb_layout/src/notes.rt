//! Which columns are not shown whole.
ghost use Rattle.std.specs.Prelude.{◌≡◌, ◌++◌, IfOk, OnOk, length, string_bytes};
ghost use Rattle.tb_frame.specs.Promise.Table.{names_of, table_of};
ghost use Rattle.tb_layout.specs.Notes.{gap};
ghost use Rattle.tb_layout.specs.Promise.Lines.{columns_word, cut_columns, listed, note_text};

use crate::cells::is_cut;
use crate::grid::Grid;
use std::alloc::Global;
use tb_label::value_text;
use tb_store::Column;
use tb_value::{OutOfMemory, ValueRef};

/// The first of the columns that are shown, where its name or a cell of it is wider than the line, else none.
pub(crate) fn cut_columns<'a>(grid: &'a Grid<'_>) -> &'a [Column]
    ensures { table_of result.now ≡ cut_columns grid.now.line (table_of grid.now.columns.now) }
{
    match grid.columns.first() {
        Some(first) if is_cut(first, grid.line, grid.widths[0]) => &grid.columns[..1],
        _ => &[],
    }
}

fn columns_word(count: usize) -> &'static str
    ensures { result.now ≡ columns_word count }
{
    if count == 1 { " column " } else { " columns " }
}

// Appends what stands before the name at this place.
fn push_gap(text: &mut String, place: usize) -> Result<(), OutOfMemory>
    ensures { OnOk result (string_bytes text.new ≡ string_bytes text.old ++ gap place) }
{
    if place == 0 {
        Ok(())
    } else {
        Ok(text.push_str(", ")?)
    }
}

// Appends the names of the columns.
fn push_names(text: &mut String, columns: &[Column]) -> Result<(), OutOfMemory>
    ensures { OnOk result
        (string_bytes text.new
        ≡ string_bytes text.old ++ listed (names_of (table_of columns.now))) }
{
    for place in 0..columns.len() {
        push_gap(text, place)?;
        text.push_str(columns[place].name().as_str())?;
    }
    Ok(())
}

/// What became of the columns.
pub(crate) fn note_text(
    alloc: Global,
    what: &str,
    columns: &[Column],
) -> Result<String, OutOfMemory>
    ensures { IfOk result (λ s.
        string_bytes s ≡ note_text what.now (names_of (table_of columns.now))) }
{
    let count = value_text(alloc, ValueRef::Int(columns.len() as i128))?;
    let mut text = String::new(alloc);
    text.push_str("(")?;
    text.push_str(count.as_str())?;
    text.push_str(columns_word(columns.len()))?;
    text.push_str(what)?;
    text.push_str(": ")?;
    push_names(&mut text, columns)?;
    text.push_str(")")?;
    Ok(text)
}
