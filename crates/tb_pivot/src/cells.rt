//! The cells of the answer.
ghost use Rattle.std.specs.Prelude.{◌≡◌, ◌≤◌, ◌<◌, ◌*◌, IfOk, length};
ghost use Rattle.tb_chunk.specs.Changed.{opt_taken_rows};
ghost use Rattle.tb_chunk.specs.Promise.Col.{values};
ghost use Rattle.tb_chunk.specs.Lent.{lent_columns};
ghost use Rattle.tb_frame.specs.Promise.Table.{table_of};
ghost use Rattle.tb_pivot.specs.Cells.{AreCells, cell_grid, cells_under};

use crate::grid::grid_of;
use crate::lookup::WideColumns;
use std::alloc::Global;
use tb_rows::{Groups, group_both, group_rows};
use tb_store::Series;
use tb_value::{IdxSize, MAX_ROWS, NullableIdxSize, OutOfMemory};

/// The groups of a table's rows, by index and header, by index, and by header.
#[derive(Drop)]
pub(crate) struct Cells {
    groups: Groups,
    rows: Groups,
    headers: Groups,
}

impl Cells {
    /// The cells of a table of so many rows, each of which has an index and a header.
    pub(crate) fn of(
        alloc: Global,
        height: usize,
        columns: &WideColumns<'_>,
    ) -> Result<Cells, OutOfMemory>
        requires { height ≤ MAX_ROWS }
        ensures { IfOk result
            (AreCells height (table_of (lent_columns columns.now.index.items))
            (table_of (lent_columns columns.now.on.items))) }
    {
        let rows = group_rows(alloc, &columns.index, height)?;
        let headers = group_rows(alloc, &columns.on, height)?;
        let groups = group_both(alloc, &rows, &headers)?;
        Ok(Cells {
            groups,
            rows,
            headers,
        })
    }

    /// For each cell its group, header after header. It has as many entries as the answer has cells.
    pub(crate) fn grid(
        &self,
        alloc: Global,
        height: usize,
        columns: &WideColumns<'_>,
    ) -> Result<Vec<NullableIdxSize>, OutOfMemory>
        requires few { height ≤ MAX_ROWS }
        requires cells { AreCells height (table_of (lent_columns columns.now.index.items))
            (table_of (lent_columns columns.now.on.items)) self.now }
        ensures { IfOk result (λ v. v.items ≡ cell_grid self.now) }
    {
        grid_of(alloc, &self.groups, &self.rows, &self.headers)
    }

    /// The table's rows in groups by index and header.
    pub(crate) fn groups(&self) -> &Groups
        ensures { result.now ≡ self.now.groups }
    {
        &self.groups
    }

    /// For each row of the answer the first row of the table with its index.
    pub(crate) fn answer_rows(&self) -> &[IdxSize]
        ensures { result.now ≡ self.now.rows.firsts.items }
    {
        self.rows.firsts()
    }

    /// For each header the first row of the table that has it.
    pub(crate) fn header_rows(&self) -> &[IdxSize]
        ensures { result.now ≡ self.now.headers.firsts.items }
    {
        self.headers.firsts()
    }

    // The groups in the cells of a header.
    fn cells_under<'a>(&self, places: &'a [NullableIdxSize], header: usize) -> &'a [NullableIdxSize]
        requires places { places.now ≡ cell_grid self.now }
        requires long { length places.now
            ≡ length self.now.headers.firsts.items * length self.now.rows.firsts.items }
        requires header { header < length self.now.headers.firsts.items }
        ensures { result.now ≡ cells_under self.now header }
    {
        let height = self.rows.firsts().len();
        let start = header * height;
        &places[start..start + height]
    }

    /// The column of the cells of a header, of the column of one value for each group. `places` is the grid.
    pub(crate) fn column(
        &self,
        alloc: Global,
        places: &[NullableIdxSize],
        made: &Series,
        header: usize,
    ) -> Result<Series, OutOfMemory>
        requires places { places.now ≡ cell_grid self.now }
        requires rows { length self.now.rows.firsts.items ≤ MAX_ROWS }
        requires header { header < length self.now.headers.firsts.items }
        requires made { length (values made.now) ≡ length self.now.groups.firsts.items }
        ensures { IfOk result (λ s. s ≡ opt_taken_rows (cells_under self.now header) made.now) }
    {
        made.take_opt(alloc, self.cells_under(places, header))
    }
}
