//! Tables that are made long some columns at a time.
ghost use Rattle.std.specs.Prelude.{◌≡◌, ◌≤◌, ◌-◌, None, IfOk, drop, length, take};
ghost use Rattle.tb_value.specs.Refusals.{Settles};
ghost use Rattle.tb_chunk.specs.Lent.{lent_columns};
ghost use Rattle.tb_frame.specs.Frame.{frame_refusal};
ghost use Rattle.tb_frame.specs.Promise.Table.{table_of};
ghost use Rattle.tb_unpivot.specs.Blocks.{HaveRows, block_table, long_names, parts_of};
ghost use Rattle.tb_unpivot.specs.Promise.Unpivot.{unpivot_refusal};

use crate::columns::long_columns;
use crate::lookup::{LongColumns, asked, on_names};
use std::alloc::Global;
use std::marker::Model;
use tb_frame::{DataFrame, check_repeated};
use tb_store::{Column, Series};
use tb_value::{OutOfMemory, PlSmallStr, PolarsResult, only_memory};

/// A table that is to be made long, some columns at a time. It is known to have a long table.
#[derive(Drop)]
pub struct LongBlocks<'a> {
    asked: LongColumns<'a>,
    rows: usize,
    variable: PlSmallStr,
    value: PlSmallStr,
}

impl<'a> Model for LongBlocks<'a> {
    ghost use Rattle.tb_unpivot.specs.Blocks.{AreLevel, LongParts, coded_parts, parts_in};

    ghost Value = { LongParts };

    ghost coded = { coded_parts };

    ghost view = { λ b. parts_in b.rows b.asked b.variable b.value };

    ghost invariant = { λ b. AreLevel b.rows b.asked b.variable b.value };
}

// The columns from one place up to another.
fn part<'a, 'b>(columns: &'b [&'a Series], first: usize, last: usize) -> &'b [&'a Series]
    requires order { first ≤ last }
    requires within { last ≤ length columns.now }
    ensures { result.now ≡ take (last - first) (drop first columns.now) }
{
    &columns[first..last]
}

// The table of columns that no cause refuses.
fn level_table(alloc: Global, columns: Vec<Column>) -> Result<DataFrame, OutOfMemory>
    requires { frame_refusal (table_of columns.items) ≡ None }
    ensures { IfOk result (λ t. t ≡ columns.items) }
{
    only_memory(DataFrame::new(alloc, columns))
}

impl<'a> LongBlocks<'a> {
    /// How many columns are put one below the other.
    pub fn len(&self) -> usize
        ensures { result ≡ length self.now.on }
    {
        self.asked.on.len()
    }

    /// How many rows each of them makes.
    pub fn rows(&self) -> usize
        ensures rows { result ≡ self.now.rows }
        ensures level { HaveRows self.now }
    {
        self.rows
    }

    /// The long table of the columns from one place up to another alone.
    pub fn block(&self, alloc: Global, first: usize, last: usize) -> Result<DataFrame, OutOfMemory>
        requires order { first ≤ last }
        requires within { last ≤ length self.now.on }
        ensures { IfOk result (λ t. table_of t ≡ block_table self.now first last) }
    {
        let on = part(&self.asked.on, first, last);
        let dtype = self.asked.dtype.copy(alloc)?;
        let variable = self.variable.as_str();
        let value = self.value.as_str();
        let columns = long_columns(alloc, dtype, on, &self.asked.index, variable, value)?;
        level_table(alloc, columns)
    }
}

// The names of the long table.
fn long_names(
    alloc: Global,
    index: &[&Series],
    variable: &str,
    value: &str,
) -> Result<Vec<PlSmallStr>, OutOfMemory>
    ensures { IfOk result (λ v.
        v.items ≡ long_names (table_of (lent_columns index.now)) variable.now value.now) }
{
    let mut names = Vec::new(alloc);
    for column in index {
        names.push(column.name().copy(alloc)?)?;
    }
    names.push(PlSmallStr::from_str(alloc, variable)?)?;
    names.push(PlSmallStr::from_str(alloc, value)?)?;
    Ok(names)
}

/// The table as one that is to be made long, under these names of the two new columns, or the refusal of its long table.
pub(crate) fn blocks_of<'a>(
    alloc: Global,
    table: &'a DataFrame,
    on: &[PlSmallStr],
    index: &[PlSmallStr],
    variable: &str,
    value: &str,
) -> PolarsResult<LongBlocks<'a>>
    ensures settles { Settles result (unpivot_refusal record {
      table = table_of table.now;
      on = on.now;
      index = index.now;
      variable = variable.now;
      value = value.now;
    }) }
    ensures parts { IfOk result (λ b. b
        ≡ parts_of record {
          table = table_of table.now;
          on = on.now;
          index = index.now;
          variable = variable.now;
          value = value.now;
        }) }
{
    let on = on_names(alloc, table.get_columns(), on, index)?;
    let asked = asked(alloc, table, &on, index)?;
    let names = long_names(alloc, &asked.index, variable, value)?;
    check_repeated(alloc, &names)?;
    Ok(LongBlocks {
        asked,
        rows: table.height(),
        variable: PlSmallStr::from_str(alloc, variable)?,
        value: PlSmallStr::from_str(alloc, value)?,
    })
}
