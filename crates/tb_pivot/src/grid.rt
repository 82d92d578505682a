//! Where the groups of rows stand in the answer.
ghost use Rattle.std.specs.Prelude.{◌≡◌, ◌≤◌, ◌<◌, ◌*◌, IfOk, length};
ghost use Rattle.std.specs.List.{All};
ghost use Rattle.tb_agg.specs.Grouped.{AreGroupsOf};
ghost use Rattle.tb_pivot.specs.Grid.{cell_at, grid, group_cell};

use std::alloc::Global;
use tb_rows::Groups;
use tb_value::{IdxSize, MAX_ROWS, NullableIdxSize, OutOfMemory};

// The number of cells.
fn cell_count(rows: &Groups, headers: &Groups) -> usize
    requires rows { length rows.now.firsts.items ≤ MAX_ROWS }
    requires headers { length headers.now.firsts.items ≤ MAX_ROWS }
    ensures { result ≡ length headers.now.firsts.items * length rows.now.firsts.items }
{
    headers.firsts().len() * rows.firsts().len()
}

// The cell of a row of the answer and a header.
fn cell_at(height: usize, row: IdxSize, header: IdxSize) -> usize
    requires { height ≤ MAX_ROWS }
    ensures { result ≡ cell_at height row header }
{
    header as usize * height + row as usize
}

// The cell of a group.
fn group_cell(groups: &Groups, rows: &Groups, headers: &Groups, group: usize) -> usize
    requires rows { AreGroupsOf (length groups.now.numbers.items) rows.now }
    requires headers { AreGroupsOf (length groups.now.numbers.items) headers.now }
    requires firsts { All (λ r. r < length groups.now.numbers.items) groups.now.firsts.items }
    requires group { group < length groups.now.firsts.items }
    ensures cell { result ≡ group_cell groups.now rows.now headers.now group }
    ensures within { result < length headers.now.firsts.items * length rows.now.firsts.items }
{
    let first = groups.firsts()[group] as usize;
    cell_at(
        rows.firsts().len(),
        rows.numbers()[first],
        headers.numbers()[first],
    )
}

/// For each cell the place of the group of rows that stands in it: header after header, and for each header in the order
/// of the answer's rows, of groups by the first row of each. `rows` and `headers` are the groups of the same rows by the
/// answer's rows and by the headers.
///
/// # Errors
///
/// `OutOfMemory` where memory is wanting.
pub(crate) fn grid_of(
    alloc: Global,
    groups: &Groups,
    rows: &Groups,
    headers: &Groups,
) -> Result<Vec<NullableIdxSize>, OutOfMemory>
    requires rows { AreGroupsOf (length groups.now.numbers.items) rows.now }
    requires headers { AreGroupsOf (length groups.now.numbers.items) headers.now }
    requires firsts { All (λ r. r < length groups.now.numbers.items) groups.now.firsts.items }
    requires few { length groups.now.firsts.items ≤ MAX_ROWS }
    ensures { IfOk result (λ v. v.items ≡ grid groups.now rows.now headers.now) }
{
    let count = cell_count(rows, headers);
    let mut cells = vec![in alloc; NullableIdxSize::null(); count]?;
    for group in 0..groups.firsts().len() {
        let cell = group_cell(groups, rows, headers, group);
        cells[cell] = NullableIdxSize::some(group as IdxSize);
    }
    Ok(cells)
}
