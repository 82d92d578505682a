//! Tables.
ghost use Rattle.std.specs.Prelude.{◌≡◌, ◌==◌, ◌≤◌, ◌<◌, ◌∷◌, [], ◌++◌, All, IfOk, IfSome, IsTrue, OnOk, length, map, position, slice_index_or, is_none, Some};
ghost use Rattle.std.specs.Option.{option_copied};
ghost use Rattle.std.specs.List.{find, list_all};
ghost use Rattle.tb_value.specs.Promise.Names.{Name, same_name};
ghost use Rattle.tb_value.specs.Promise.Refusals.{when};
ghost use Rattle.tb_value.specs.Refusals.{Settles};
ghost use Rattle.tb_value.specs.declared.error.PolarsError.TheVariants.{ColumnNotFound, Duplicate, ShapeMismatch};
ghost use Rattle.tb_chunk.specs.Promise.Col.{Col, values};
ghost use Rattle.tb_chunk.specs.Lent.{lent_columns};
ghost use Rattle.tb_chunk.specs.Rows.{IsRowOf};
ghost use Rattle.tb_frame.specs.Promise.Table.{table_of, height, names_of, IsTable, IsTyped};
ghost use Rattle.tb_frame.specs.Promise.Refusal.{unknown_key};
ghost use Rattle.tb_frame.specs.Promise.Naming.{is_among};
ghost use Rattle.tb_frame.specs.NameSets.{has_name};
ghost use Rattle.tb_frame.specs.Promise.Frame.{are_level, selected_columns};
ghost use Rattle.tb_frame.specs.Frame.{frame_refusal, opt_taken_rows, select_refusal, sliced_rows, taken_rows, without_names};

use crate::lookup::lend_columns;
use crate::names::{NameSet, check_distinct, name_set};
use std::alloc::Global;
use std::marker::Model;
use tb_store::{Column, Series};
use tb_value::{
    IdxSize, MAX_ROWS, NullableIdxSize, OutOfMemory, PlSmallStr, PolarsError, PolarsResult,
};

/// A table: columns of distinct names and one height.
#[derive(Drop)]
pub struct DataFrame {
    pub(crate) columns: Vec<Column>,
}

impl Model for DataFrame {
    ghost use Rattle.std.specs.Prelude.{List};
    ghost use Rattle.std.specs.Coded.{coded_list};
    ghost use Rattle.tb_chunk.specs.Promise.Col.{Col};
    ghost use Rattle.tb_chunk.specs.ColCode.{coded_col};
    ghost use Rattle.tb_frame.specs.Promise.Table.{table_of, IsTable};

    ghost Value = { List Col };

    ghost coded = { coded_list coded_col };

    ghost view = { λ t. t.columns.items };

    ghost invariant = { λ t. IsTable (table_of t.columns.items) };
}

/// What lends a table. Operations over it speak of the table that it lends.
pub trait IntoDf {
    ghost use Rattle.std.specs.Prelude.{List};
    ghost use Rattle.tb_chunk.specs.Promise.Col.{Col};

    /// The columns of the table.
    ghost frame: { Self → List Col };

    fn to_df(&self) -> &DataFrame
        ensures { result.now ≡ frame self.now };
}

impl IntoDf for DataFrame {
    ghost frame = { λ t. t };

    fn to_df(&self) -> &DataFrame {
        self
    }
}

// Whether all columns have one length. A look at each length hands out that the column's values are of its type.
fn is_level(columns: &[Column]) -> bool
    ensures level { result ≡ are_level (table_of columns.now) }
    ensures typed { IsTrue result → All IsTyped (table_of columns.now) }
{
    match columns.first() {
        None => true,
        Some(first) => have_len(columns, first.len()),
    }
}

fn have_len(columns: &[Column], len: usize) -> bool
    ensures level { result ≡ list_all (λ (c : Col). length (values c) == len) columns.now }
    ensures typed { IsTrue result → All IsTyped (table_of columns.now) }
{
    for column in columns {
        if column.len() != len {
            return false;
        }
    }
    true
}

fn find_column<'a>(columns: &'a [Column], name: &str) -> Option<&'a Column>
    ensures { option_copied result ≡ find (λ (c : Col). same_name c.name name.now) columns.now }
{
    columns.iter().find(|column| column.name().as_str() == name)
}

fn named_column<'a>(alloc: Global, columns: &'a [Column], name: &str) -> PolarsResult<&'a Column>
    ensures found { IfOk result (λ c.
        find (λ (c : Col). same_name c.name name.now) columns.now ≡ Some c.now) }
    ensures settles { Settles result
        (when (is_none (find (λ (c : Col). same_name c.name name.now) columns.now))
        (ColumnNotFound name.now)) }
{
    match find_column(columns, name) {
        Some(column) => Ok(column),
        None => Err(PolarsError::ColumnNotFound(PlSmallStr::from_str(alloc, name)?)),
    }
}

/// The set of the columns' names.
pub fn column_name_set(alloc: Global, columns: &[Column]) -> Result<NameSet<'_>, OutOfMemory>
    ensures { IfOk result (λ s.
        (n : Name) → has_name s n ≡ is_among (names_of (table_of columns.now)) n) }
{
    let mut set = NameSet::new(alloc);
    for column in columns {
        set.insert(column.name())?;
    }
    Ok(set)
}

// The names of the columns, in their order.
pub(crate) fn column_names(
    alloc: Global,
    columns: &[Column],
) -> Result<Vec<&PlSmallStr>, OutOfMemory>
    ensures { IfOk result (λ v. map (λ n. n.now) v.items ≡ names_of (table_of columns.now)) }
{
    let mut names = Vec::with_capacity(alloc, columns.len())?;
    for column in columns {
        names.push(column.name())?;
    }
    Ok(names)
}

fn check_columns(alloc: Global, columns: &[Column]) -> PolarsResult<()>
    ensures settles { Settles result (frame_refusal (table_of columns.now)) }
    ensures typed { OnOk result (All IsTyped (table_of columns.now)) }
{
    if !is_level(columns) {
        return Err(PolarsError::ShapeMismatch);
    }
    check_distinct(alloc, &column_names(alloc, columns)?)
}

impl DataFrame {
    /// The table of these columns. Refuses, in this order, columns of two lengths (ShapeMismatch) and the first
    /// repeated name (Duplicate).
    pub fn new(alloc: Global, columns: Vec<Column>) -> PolarsResult<DataFrame>
        ensures settles { Settles result (frame_refusal (table_of columns.items)) }
        ensures columns { IfOk result (λ t. t ≡ columns.items) }
        ensures table { IfOk result (λ t. IsTable (table_of t)) }
    {
        check_columns(alloc, &columns)?;
        Ok(DataFrame { columns })
    }

    /// The number of rows, 0 where there is no column.
    pub fn height(&self) -> usize
        ensures height { result ≡ height (table_of self.now) }
        ensures short { result ≤ MAX_ROWS }
    {
        match self.columns.first() {
            None => 0,
            Some(column) => column.len(),
        }
    }

    /// The number of columns.
    pub fn width(&self) -> usize
        ensures { result ≡ length self.now }
    {
        self.columns.len()
    }

    /// The columns, in their order.
    pub fn get_columns(&self) -> &[Column]
        ensures columns { result.now ≡ self.now }
        ensures table { IsTable (table_of self.now) }
    {
        self.columns.as_slice()
    }

    /// The columns, in their order, handed over.
    pub fn into_columns(self) -> Vec<Column>
        ensures { result.items ≡ self }
    {
        let DataFrame { columns } = self;
        columns
    }

    /// The place of the column of this name, counted from 0.
    pub fn position(&self, name: &str) -> Option<usize>
        ensures { result ≡ position (λ (c : Col). same_name c.name name.now) self.now }
    {
        self.columns
            .iter()
            .position(|column| column.name().as_str() == name)
    }

    /// The column of this name. Refuses a name that no column has (ColumnNotFound).
    pub fn column(&self, alloc: Global, name: &str) -> PolarsResult<&Column>
        ensures found { IfOk result (λ c.
            find (λ (c : Col). same_name c.name name.now) self.now ≡ Some c.now) }
        ensures settles { Settles result
            (when (is_none (find (λ (c : Col). same_name c.name name.now) self.now))
            (ColumnNotFound name.now)) }
    {
        named_column(alloc, &self.columns, name)
    }

    /// The columns of these names, in the order of the names. Refuses, in this order, the first name that no column
    /// has (ColumnNotFound) and the first repeated name (Duplicate).
    pub fn select(&self, alloc: Global, names: &[PlSmallStr]) -> PolarsResult<DataFrame>
        ensures settles { Settles result (select_refusal names.now (table_of self.now)) }
        ensures table { IfOk result (λ t. t ≡ selected_columns names.now self.now) }
    {
        let columns = select_columns(alloc, &self.columns, names)?;
        DataFrame::new(alloc, columns)
    }

    /// The columns of the table, and then these. Refuses, in this order, columns of two lengths (ShapeMismatch) and
    /// the first repeated name (Duplicate).
    pub fn hstack(&self, alloc: Global, columns: &[Column]) -> PolarsResult<DataFrame>
        ensures settles { Settles result (frame_refusal (table_of (self.now ++ columns.now))) }
        ensures table { IfOk result (λ t. t ≡ self.now ++ columns.now) }
    {
        let mut stacked = copy_columns(alloc, &self.columns)?;
        push_copies(alloc, &mut stacked, columns)?;
        DataFrame::new(alloc, stacked)
    }

    /// The columns whose names are not among these. Names that no column has are ignored.
    pub fn drop_many(&self, alloc: Global, names: &[PlSmallStr]) -> Result<DataFrame, OutOfMemory>
        ensures { IfOk result (λ t. t ≡ without_names names.now self.now) }
    {
        Ok(DataFrame {
            columns: other_columns(alloc, &self.columns, names)?,
        })
    }

    /// These rows in this order, each column in one chunk.
    pub fn take(&self, alloc: Global, rows: &[IdxSize]) -> Result<DataFrame, OutOfMemory>
        requires rows { All (λ r. r < height (table_of self.now)) rows.now }
        requires few { length rows.now ≤ MAX_ROWS }
        ensures { IfOk result (λ t. t ≡ map (taken_rows rows.now) self.now) }
    {
        Ok(DataFrame {
            columns: take_columns(alloc, &self.columns, rows)?,
        })
    }

    /// These rows in this order, each column in one chunk. An absent row gives Null in each column.
    pub fn take_opt(
        &self,
        alloc: Global,
        rows: &[NullableIdxSize],
    ) -> Result<DataFrame, OutOfMemory>
        requires rows { All (IsRowOf (height (table_of self.now))) rows.now }
        requires few { length rows.now ≤ MAX_ROWS }
        ensures { IfOk result (λ t. t ≡ map (opt_taken_rows rows.now) self.now) }
    {
        Ok(DataFrame {
            columns: take_opt_columns(alloc, &self.columns, rows)?,
        })
    }

    /// The `len` rows from `offset` on, as far as there are such rows, each column in one chunk. A negative offset
    /// counts from the end.
    pub fn slice(&self, alloc: Global, offset: i64, len: usize) -> Result<DataFrame, OutOfMemory>
        ensures { IfOk result (λ t. t ≡ map (sliced_rows offset len) self.now) }
    {
        Ok(DataFrame {
            columns: slice_columns(alloc, &self.columns, offset, len)?,
        })
    }

    /// An equal table.
    pub fn copy(&self, alloc: Global) -> Result<DataFrame, OutOfMemory>
        ensures { IfOk result (λ t. t ≡ self.now) }
    {
        Ok(DataFrame {
            columns: copy_columns(alloc, &self.columns)?,
        })
    }
}

fn copy_columns(alloc: Global, columns: &[Column]) -> Result<Vec<Column>, OutOfMemory>
    ensures { IfOk result (λ v. v.items ≡ columns.now) }
{
    let mut copies = Vec::with_capacity(alloc, columns.len())?;
    push_copies(alloc, &mut copies, columns)?;
    Ok(copies)
}

// Copies of the columns of these names, in the order of the names. Refuses the first name that no column has
// (ColumnNotFound).
fn select_columns(
    alloc: Global,
    columns: &[Column],
    names: &[PlSmallStr],
) -> PolarsResult<Vec<Column>>
    ensures settles { Settles result (unknown_key (table_of columns.now) names.now) }
    ensures columns { IfOk result (λ v. v.items ≡ selected_columns names.now columns.now) }
{
    let lent = lend_columns(alloc, columns, names)?;
    Ok(copies_of(alloc, &lent)?)
}

// Copies of columns that are lent.
fn copies_of(alloc: Global, columns: &[&Series]) -> Result<Vec<Column>, OutOfMemory>
    ensures { IfOk result (λ v. v.items ≡ lent_columns columns.now) }
{
    let mut copies = Vec::with_capacity(alloc, columns.len())?;
    for column in columns {
        copies.push(column.copy(alloc)?.into_column())?;
    }
    Ok(copies)
}

fn push_copy(alloc: Global, copies: &mut Vec<Column>, column: &Column) -> Result<(), OutOfMemory>
    ensures { OnOk result (copies.new.items ≡ copies.old.items ++ column.now ∷ []) }
{
    copies.push(column.copy(alloc)?)?;
    Ok(())
}

fn push_copies(
    alloc: Global,
    copies: &mut Vec<Column>,
    columns: &[Column],
) -> Result<(), OutOfMemory>
    ensures { OnOk result (copies.new.items ≡ copies.old.items ++ columns.now) }
{
    for column in columns {
        push_copy(alloc, copies, column)?;
    }
    Ok(())
}

fn other_columns(
    alloc: Global,
    columns: &[Column],
    names: &[PlSmallStr],
) -> Result<Vec<Column>, OutOfMemory>
    ensures { IfOk result (λ v. v.items ≡ without_names names.now columns.now) }
{
    let gone = name_set(alloc, names)?;
    let mut others = Vec::new(alloc);
    for column in columns {
        if !gone.contains(column.name()) {
            others.push(column.copy(alloc)?)?;
        }
    }
    Ok(others)
}

// These rows of each column in this order, each in one chunk.
fn take_columns(
    alloc: Global,
    columns: &[Column],
    rows: &[IdxSize],
) -> Result<Vec<Column>, OutOfMemory>
    requires rows { All (λ (c : Col). All (λ r. r < length (values c)) rows.now) columns.now }
    requires few { length rows.now ≤ MAX_ROWS }
    ensures { IfOk result (λ v. v.items ≡ map (taken_rows rows.now) columns.now) }
{
    let mut taken = Vec::with_capacity(alloc, columns.len())?;
    for column in columns {
        taken.push(column.take(alloc, rows)?)?;
    }
    Ok(taken)
}

// These rows of each column in this order, each in one chunk. An absent row gives Null.
fn take_opt_columns(
    alloc: Global,
    columns: &[Column],
    rows: &[NullableIdxSize],
) -> Result<Vec<Column>, OutOfMemory>
    requires rows { All (λ (c : Col). All (IsRowOf (length (values c))) rows.now) columns.now }
    requires few { length rows.now ≤ MAX_ROWS }
    ensures { IfOk result (λ v. v.items ≡ map (opt_taken_rows rows.now) columns.now) }
{
    let mut taken = Vec::with_capacity(alloc, columns.len())?;
    for column in columns {
        taken.push(column.take_opt(alloc, rows)?)?;
    }
    Ok(taken)
}

fn slice_columns(
    alloc: Global,
    columns: &[Column],
    offset: i64,
    len: usize,
) -> Result<Vec<Column>, OutOfMemory>
    ensures { IfOk result (λ v. v.items ≡ map (sliced_rows offset len) columns.now) }
{
    let mut parts = Vec::with_capacity(alloc, columns.len())?;
    for column in columns {
        parts.push(column.slice(alloc, offset, len)?)?;
    }
    Ok(parts)
}
