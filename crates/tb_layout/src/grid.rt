//! The columns of a table that are shown, and their widths.
ghost use Rattle.std.specs.Prelude.{◌≡◌, ◌≤◌, IfOk, drop, length, map, take};
ghost use Rattle.tb_frame.specs.Promise.Table.{table_of};
ghost use Rattle.tb_layout.specs.Promise.Lines.{column_width, fitting_columns};

use crate::measured::column_width;
use std::alloc::Global;
use std::thread::Threads;
use tb_store::Column;
use tb_value::OutOfMemory;

/// The columns of a table that are shown, the width of the terminal's line, and how wide each column is on it.
#[derive(Drop)]
pub(crate) struct Grid<'a> {
    pub(crate) columns: &'a [Column],
    pub(crate) line: usize,
    pub(crate) widths: Vec<usize>,
    ghost wide: { widths.items ≡ map (column_width line) (table_of columns.now) },
}

// The widths of the columns that stand in the line. The others are not measured, but for the first of them.
fn fitting_widths(
    rt: &(impl Threads + Sync),
    alloc: Global,
    columns: &[Column],
    line: usize,
) -> Result<Vec<usize>, OutOfMemory>
    ensures widths { IfOk result (λ v.
        v.items ≡ map (column_width line) (table_of (take (length v.items) columns.now))) }
    ensures count { IfOk result (λ v.
        length v.items ≡ fitting_columns line (table_of columns.now)) }
    ensures few { IfOk result (λ v. length v.items ≤ length columns.now) }
{
    let mut widths = Vec::new(alloc);
    let mut room = line;
    for column in columns {
        let width = column_width(rt, alloc, column, line)?;
        if room < width {
            return Ok(widths);
        }
        widths.push(width)?;
        room = (room - width).saturating_sub(2);
    }
    Ok(widths)
}

/// Those of the columns that stand in the line.
pub(crate) fn shown_grid<'a>(
    rt: &(impl Threads + Sync),
    alloc: Global,
    columns: &'a [Column],
    line: usize,
) -> Result<Grid<'a>, OutOfMemory>
    ensures line { IfOk result (λ g. g.line ≡ line) }
    ensures columns { IfOk result (λ g.
        g.columns.now ≡ take (fitting_columns line (table_of columns.now)) columns.now) }
    ensures count { IfOk result (λ g.
        length g.columns.now ≡ fitting_columns line (table_of columns.now)) }
    ensures few { IfOk result (λ g. length g.columns.now ≤ length columns.now) }
{
    let widths = fitting_widths(rt, alloc, columns, line)?;
    Ok(Grid {
        columns: &columns[..widths.len()],
        line,
        widths,
    })
}

/// The columns behind so many.
pub(crate) fn columns_behind(columns: &[Column], shown: usize) -> &[Column]
    requires { shown ≤ length columns.now }
    ensures { result.now ≡ drop shown columns.now }
{
    &columns[shown..]
}
