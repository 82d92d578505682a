//! The columns of an answer.
ghost use Rattle.std.specs.Prelude.{◌≡◌, ◌≤◌, ◌<◌, ◌∷◌, [], ◌++◌, ◌&&◌, IfOk, OnOk, length, map, nat_lt};
ghost use Rattle.std.specs.List.{All, flat_map};
ghost use Rattle.std.specs.Cmp.Lexicographic.{slice_cmp};
ghost use Rattle.std.specs.Ordering.{nat_cmp};
ghost use Rattle.tb_value.specs.Promise.Refusals.{first_cause};
ghost use Rattle.tb_value.specs.Refusals.{Settles};
ghost use Rattle.tb_chunk.specs.Promise.Col.{Col, values};
ghost use Rattle.tb_chunk.specs.Lent.{lent_columns};
ghost use Rattle.tb_frame.specs.Frame.{taken_rows};
ghost use Rattle.tb_frame.specs.Promise.Refusal.{repeated_among};
ghost use Rattle.tb_frame.specs.Promise.Table.{by_name, plain_column, table_of};
ghost use Rattle.tb_rows.specs.Promise.InOrder.{in_order};
ghost use Rattle.tb_pivot.specs.Cells.{cell_grid};
ghost use Rattle.tb_pivot.specs.Layout.{answer_names, block_names, header_column, header_columns, laid_block, laid_out, texts_at, IsLayout};
ghost use Rattle.tb_pivot.specs.Lookup.{AreAsHigh, chosen_of};
ghost use Rattle.tb_pivot.specs.Made.{made_cause, IsMade};
ghost use Rattle.tb_pivot.specs.Promise.Refusal.{is_one_row, many_cause};
ghost use Rattle.tb_pivot.specs.Promise.Request.{Way};

use crate::cells::Cells;
use crate::headers::{block_name, header_text};
use crate::lookup::WideColumns;
use crate::maker::CellMaker;
use std::alloc::Global;
use tb_frame::check_repeated;
use tb_store::{Column, Series};
use tb_value::{
    ComputeCause, IdxSize, MAX_ROWS, NullableIdxSize, OutOfMemory, PlSmallStr, PolarsError,
    PolarsResult,
};

/// What all columns of an answer are laid out by: the columns that were found of a table of so many rows, whether the
/// columns of a block are sorted by their names, the separator of those, the cells, and the texts of their headers.
#[derive(Drop)]
pub(crate) struct Layout<'a, 'b> {
    height: usize,
    columns: &'a WideColumns<'b>,
    sorts: bool,
    separator: &'a str,
    cells: Cells,
    texts: Vec<PlSmallStr>,
}

/// A value column, and the column of one value of it for each group of rows.
#[derive(Drop)]
pub(crate) struct GroupValues<'b> {
    value: &'b Series,
    made: Series,
}

// Puts a value column and the values of its groups behind others.
fn push_values<'b>(
    blocks: &mut Vec<GroupValues<'b>>,
    value: &'b Series,
    made: Series,
) -> Result<(), OutOfMemory>
    ensures { OnOk result
        (blocks.new.items ≡ blocks.old.items ++ record { value = value.entry; made = made } ∷ []) }
{
    blocks.push(GroupValues { value, made })?;
    Ok(())
}

// The texts of the headers of these rows.
fn texts_at(
    alloc: Global,
    columns: &[&Series],
    rows: &[IdxSize],
) -> Result<Vec<PlSmallStr>, OutOfMemory>
    requires { All (λ r. All (λ c. r < length (values c.now)) columns.now) rows.now }
    ensures { IfOk result (λ v. v.items ≡ texts_at columns.now rows.now) }
{
    let mut texts = Vec::with_capacity(alloc, rows.len())?;
    for row in rows {
        texts.push(header_text(alloc, columns, *row as usize)?)?;
    }
    Ok(texts)
}

// These rows of each column.
fn columns_at(
    alloc: Global,
    columns: &[&Series],
    rows: &[IdxSize],
) -> Result<Vec<Column>, OutOfMemory>
    requires rows { All (λ c. All (λ r. r < length (values c.now)) rows.now) columns.now }
    requires few { length rows.now ≤ MAX_ROWS }
    ensures { IfOk result (λ v. v.items ≡ map (taken_rows rows.now) (lent_columns columns.now)) }
{
    let mut taken = Vec::with_capacity(alloc, columns.len())?;
    for column in columns {
        taken.push(column.take(alloc, rows)?.into_column())?;
    }
    Ok(taken)
}

// The columns by the bytes of their names.
fn columns_by_name(columns: Vec<Column>) -> Result<Vec<Column>, OutOfMemory>
    ensures { IfOk result (λ v. table_of v.items ≡ in_order by_name (table_of columns.items)) }
{
    let mut columns = columns;
    columns.sort_by(|a, b| a.name().cmp(b.name()))?;
    Ok(columns)
}

// The names by their bytes.
fn names_by_bytes(names: Vec<PlSmallStr>) -> Result<Vec<PlSmallStr>, OutOfMemory>
    ensures { IfOk result (λ v. v.items ≡ in_order (slice_cmp nat_cmp) names.items) }
{
    let mut names = names;
    names.sort_by(|a, b| a.cmp(b))?;
    Ok(names)
}

impl<'a, 'b> Layout<'a, 'b> {
    /// The layout of the answer of these columns of a table of so many rows.
    pub(crate) fn of(
        alloc: Global,
        height: usize,
        columns: &'a WideColumns<'b>,
        sorts: bool,
        separator: &'a str,
    ) -> Result<Layout<'a, 'b>, OutOfMemory>
        requires few { height ≤ MAX_ROWS }
        requires high { AreAsHigh height columns.now }
        ensures layout { IfOk result IsLayout }
        ensures columns { IfOk result (λ l. l.columns.now ≡ columns.now) }
        ensures chosen { IfOk result (λ l.
            (way : Way) → laid_out l way ≡ chosen_of height columns.now sorts way separator.now) }
    {
        let cells = Cells::of(alloc, height, columns)?;
        let texts = texts_at(alloc, &columns.on, cells.header_rows())?;
        Ok(Layout {
            height,
            columns,
            sorts,
            separator,
            cells,
            texts,
        })
    }

    // Whether a cell is to have one row, and there are more rows than cells with rows.
    fn has_many<M: CellMaker>(&self, maker: &M) -> bool
        ensures { result ≡ (is_one_row (M.way maker.now)
            && (nat_lt 0 (length self.now.columns.now.values.items) && nat_lt (length self.now.cells.groups.firsts.items) self.now.height)) }
    {
        maker.wants_one_row()
            && !self.columns.values.is_empty()
            && self.cells.groups().firsts().len() < self.height
    }

    /// Refuses cells of several rows where each is to have one (ManyInGroup).
    pub(crate) fn check_rows<M: CellMaker>(&self, maker: &M) -> PolarsResult<()>
        requires { IsLayout self.now }
        ensures { Settles result (many_cause (laid_out self.now (M.way maker.now))) }
    {
        if self.has_many(maker) {
            return Err(PolarsError::ComputeError(ComputeCause::ManyInGroup));
        }
        Ok(())
    }

    // The column of a value column and a header, from one value for each group.
    fn header_column(
        &self,
        alloc: Global,
        places: &[NullableIdxSize],
        value: &Series,
        made: &Series,
        header: usize,
    ) -> Result<Column, OutOfMemory>
        requires layout { IsLayout self.now }
        requires places { places.now ≡ cell_grid self.now.cells }
        requires made { length (values made.now) ≡ length self.now.cells.groups.firsts.items }
        requires header { header < length self.now.texts.items }
        ensures { IfOk result (λ c.
            plain_column c ≡ header_column self.now value.now made.now header) }
    {
        let mut column = self.cells.column(alloc, places, made, header)?;
        column.rename(block_name(
            alloc,
            self.columns.values.len(),
            self.separator,
            value.name(),
            &self.texts[header],
        )?);
        Ok(column.into_column())
    }

    // Those of all headers, in the order of the headers' first rows.
    fn header_columns(
        &self,
        alloc: Global,
        places: &[NullableIdxSize],
        value: &Series,
        made: &Series,
    ) -> Result<Vec<Column>, OutOfMemory>
        requires layout { IsLayout self.now }
        requires places { places.now ≡ cell_grid self.now.cells }
        requires made { length (values made.now) ≡ length self.now.cells.groups.firsts.items }
        ensures { IfOk result (λ v. table_of v.items ≡ header_columns self.now value.now made.now) }
    {
        let mut columns = Vec::with_capacity(alloc, self.texts.len())?;
        for header in 0..self.texts.len() {
            columns.push(self.header_column(alloc, places, value, made, header)?)?;
        }
        Ok(columns)
    }

    // The block of a value column.
    fn block(
        &self,
        alloc: Global,
        places: &[NullableIdxSize],
        value: &Series,
        made: &Series,
    ) -> Result<Vec<Column>, OutOfMemory>
        requires layout { IsLayout self.now }
        requires places { places.now ≡ cell_grid self.now.cells }
        requires made { length (values made.now) ≡ length self.now.cells.groups.firsts.items }
        ensures { IfOk result (λ v. table_of v.items ≡ laid_block self.now value.now made.now) }
    {
        let columns = self.header_columns(alloc, places, value, made)?;
        if self.sorts {
            columns_by_name(columns)
        } else {
            Ok(columns)
        }
    }

    // The same from values in any chunks, which are joined once where each header would join them anew.
    fn block_of_chunks(
        &self,
        alloc: Global,
        places: &[NullableIdxSize],
        value: &Series,
        made: &Series,
    ) -> Result<Vec<Column>, OutOfMemory>
        requires layout { IsLayout self.now }
        requires places { places.now ≡ cell_grid self.now.cells }
        requires made { length (values made.now) ≡ length self.now.cells.groups.firsts.items }
        ensures { IfOk result (λ v. table_of v.items ≡ laid_block self.now value.now made.now) }
    {
        if made.n_chunks() == 1 {
            return self.block(alloc, places, value, made);
        }
        let whole = made.rechunk(alloc)?;
        self.block(alloc, places, value, &whole)
    }

    // Puts the block of a value column behind others.
    fn push_block(
        &self,
        alloc: Global,
        columns: &mut Vec<Column>,
        places: &[NullableIdxSize],
        block: &GroupValues<'_>,
    ) -> Result<(), OutOfMemory>
        requires layout { IsLayout self.now }
        requires places { places.now ≡ cell_grid self.now.cells }
        requires made { length (values block.now.made) ≡ length self.now.cells.groups.firsts.items }
        ensures { OnOk result
            (table_of columns.new.items
            ≡ table_of columns.old.items
            ++ laid_block self.now block.now.value.now block.now.made) }
    {
        let mut block = self.block_of_chunks(alloc, places, block.value, &block.made)?;
        columns.append(&mut block)?;
        Ok(())
    }

    // The columns of the index, in the rows in which a row of the index stands for the first time.
    fn index_columns(&self, alloc: Global) -> Result<Vec<Column>, OutOfMemory>
        requires { IsLayout self.now }
        ensures { IfOk result (λ v.
            v.items
            ≡ map (taken_rows self.now.cells.rows.firsts.items)
            (lent_columns self.now.columns.now.index.items)) }
    {
        columns_at(alloc, &self.columns.index, self.cells.answer_rows())
    }

    /// One value for each group of each value column, or what the maker refuses first.
    pub(crate) fn group_values<M: CellMaker>(
        &self,
        alloc: Global,
        maker: &M,
    ) -> PolarsResult<Vec<GroupValues<'b>>>
        requires layout { IsLayout self.now }
        requires ready { M.IsReady maker.now }
        ensures settles { Settles result
            (first_cause
            (map (made_cause (M.way maker.now) self.now.cells.groups)
            (lent_columns self.now.columns.now.values.items))) }
        ensures values { IfOk result (λ v.
            map (λ b. b.value) v.items ≡ self.now.columns.now.values.items) }
        ensures made { IfOk result (λ v.
            All (λ b. IsMade (M.way maker.now) self.now.cells.groups b.value.now b.made) v.items) }
    {
        let mut blocks = Vec::new(alloc);
        for value in &self.columns.values {
            let made = maker.made(alloc, value, self.cells.groups())?;
            push_values(&mut blocks, value, made)?;
        }
        Ok(blocks)
    }

    // The names of the columns of a block.
    fn block_names(&self, alloc: Global, value: &PlSmallStr) -> Result<Vec<PlSmallStr>, OutOfMemory>
        ensures { IfOk result (λ v. v.items ≡ block_names self.now value.now) }
    {
        let mut names = Vec::with_capacity(alloc, self.texts.len())?;
        for text in &self.texts {
            names.push(block_name(
                alloc,
                self.columns.values.len(),
                self.separator,
                value,
                text,
            )?)?;
        }
        if self.sorts {
            names_by_bytes(names)
        } else {
            Ok(names)
        }
    }

    // The names of the columns of the index.
    fn index_names(&self, alloc: Global) -> Result<Vec<PlSmallStr>, OutOfMemory>
        ensures { IfOk result (λ v.
            v.items ≡ map (λ c. c.now.name) self.now.columns.now.index.items) }
    {
        let mut names = Vec::with_capacity(alloc, self.columns.index.len())?;
        for column in &self.columns.index {
            names.push(column.name().copy(alloc)?)?;
        }
        Ok(names)
    }

    // The names of all columns of the answer.
    fn answer_names(&self, alloc: Global) -> Result<Vec<PlSmallStr>, OutOfMemory>
        ensures { IfOk result (λ v. v.items ≡ answer_names self.now) }
    {
        let mut names = self.index_names(alloc)?;
        for value in &self.columns.values {
            names.append(&mut self.block_names(alloc, value.name())?)?;
        }
        Ok(names)
    }

    /// Refuses the first repeated name of the answer (Duplicate).
    pub(crate) fn check_names(&self, alloc: Global) -> PolarsResult<()>
        ensures { Settles result (repeated_among (answer_names self.now)) }
    {
        check_repeated(alloc, &self.answer_names(alloc)?)
    }

    /// The columns of the index, and the blocks of these value columns. The grid of cells is made here, when nothing can be refused
    /// any more.
    pub(crate) fn columns(
        &self,
        alloc: Global,
        blocks: &[GroupValues<'_>],
    ) -> Result<Vec<Column>, OutOfMemory>
        requires layout { IsLayout self.now }
        requires made { All
            (λ b. length (values b.made) ≡ length self.now.cells.groups.firsts.items) blocks.now }
        ensures { IfOk result (λ v.
            table_of v.items
            ≡ table_of
            (map (taken_rows self.now.cells.rows.firsts.items)
            (lent_columns self.now.columns.now.index.items))
            ++ flat_map (λ b. laid_block self.now b.value.now b.made) blocks.now) }
    {
        let places = self.cells.grid(alloc, self.height, self.columns)?;
        let mut columns = self.index_columns(alloc)?;
        for block in blocks {
            self.push_block(alloc, &mut columns, &places, block)?;
        }
        Ok(columns)
    }
}
