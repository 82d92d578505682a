//! The calls by which tables are made long.
ghost use Rattle.std.specs.Prelude.{◌≡◌, IfOk, None, unwrap_or};
ghost use Rattle.tb_value.specs.Refusals.{Settles};
ghost use Rattle.tb_frame.specs.Promise.Table.{table_of};
ghost use Rattle.tb_unpivot.specs.Blocks.{parts_of};
ghost use Rattle.tb_unpivot.specs.Promise.Unpivot.{unpivot_refusal, unpivot_table, value_or, variable_or};

use crate::blocks::{LongBlocks, blocks_of};
use std::alloc::Global;
use tb_frame::{DataFrame, IntoDf};
use tb_value::{PlSmallStr, PolarsResult};

/// What is asked of `unpivot2`.
#[derive(Drop)]
pub struct UnpivotArgsIR {
    /// The names of the columns that are put one below the other; where there is none, all columns outside `index`.
    pub on: Vec<PlSmallStr>,
    /// The names of the columns that stay beside them.
    pub index: Vec<PlSmallStr>,
    /// The name of the column of names, `variable` where there is none.
    pub variable_name: Option<PlSmallStr>,
    /// The name of the column of values, `value` where there is none.
    pub value_name: Option<PlSmallStr>,
}

/// Tables that are made long.
pub trait UnpivotDF: IntoDf {
    /// For each name of `on` in turn all rows once more: the columns of `index`, the column `variable` with the name,
    /// and the column `value` with that column's value, cast to the common type of the columns of `on`. An empty `on`
    /// means all columns outside `index`.
    ///
    /// # Errors
    ///
    /// The first of these that holds, or `OutOfMemory`,
    /// which stands for a name of 2^32 bytes or more too; of a table without columns the last alone is looked at:
    /// 1. `ColumnNotFound`: a name of `on` is of no column, and then a name of `index`;
    /// 2. `Duplicate`: `index` repeats a name;
    /// 3. `NoSupertype`: a column of `on` has no type in common with those before it;
    /// 4. `TooManyRows`: there would be more than `MAX_ROWS` values;
    /// 5. `Duplicate`: two columns of the answer would have this name.
    final fn unpivot(
        &self,
        alloc: Global,
        on: &[PlSmallStr],
        index: &[PlSmallStr],
    ) -> PolarsResult<DataFrame>
        ensures settles { Settles result (unpivot_refusal record {
          table = table_of (Self.frame self.now);
          on = on.now;
          index = index.now;
          variable = variable_or None;
          value = value_or None;
        }) }
        ensures table { IfOk result (λ t. table_of t
            ≡ unpivot_table record {
              table = table_of (Self.frame self.now);
              on = on.now;
              index = index.now;
              variable = variable_or None;
              value = value_or None;
            }) }
    {
        unpivoted(alloc, self.to_df(), on, index, "variable", "value")
    }

    /// As `unpivot`, with names for the two columns.
    ///
    /// # Errors
    ///
    /// Those of `unpivot`.
    final fn unpivot2(&self, alloc: Global, args: UnpivotArgsIR) -> PolarsResult<DataFrame>
        ensures settles { Settles result (unpivot_refusal record {
          table = table_of (Self.frame self.now);
          on = args.on.items;
          index = args.index.items;
          variable = variable_or args.variable_name;
          value = value_or args.value_name;
        }) }
        ensures table { IfOk result (λ t. table_of t
            ≡ unpivot_table record {
              table = table_of (Self.frame self.now);
              on = args.on.items;
              index = args.index.items;
              variable = variable_or args.variable_name;
              value = value_or args.value_name;
            }) }
    {
        let variable = name_or(&args.variable_name, "variable");
        let value = name_or(&args.value_name, "value");
        unpivoted(alloc, self.to_df(), &args.on, &args.index, variable, value)
    }
}

impl UnpivotDF for DataFrame {}

// The name, or another where there is none.
fn name_or<'a>(name: &'a Option<PlSmallStr>, other: &'a str) -> &'a str
    ensures { result.now ≡ unwrap_or name.now other.now }
{
    match name {
        Some(name) => name.as_str(),
        None => other,
    }
}

// The table made long, under these names of its two new columns.
fn unpivoted(
    alloc: Global,
    table: &DataFrame,
    on: &[PlSmallStr],
    index: &[PlSmallStr],
    variable: &str,
    value: &str,
) -> PolarsResult<DataFrame>
    ensures settles { Settles result (unpivot_refusal record {
      table = table_of table.now;
      on = on.now;
      index = index.now;
      variable = variable.now;
      value = value.now;
    }) }
    ensures table { IfOk result (λ t. table_of t
        ≡ unpivot_table record {
          table = table_of table.now;
          on = on.now;
          index = index.now;
          variable = variable.now;
          value = value.now;
        }) }
{
    let blocks = blocks_of(alloc, table, on, index, variable, value)?;
    Ok(blocks.block(alloc, 0, blocks.len())?)
}

/// The table as one that is to be made long as `unpivot2` would, some columns at a time.
///
/// # Errors
///
/// Those of `unpivot2`.
pub fn long_blocks<'a>(
    alloc: Global,
    table: &'a DataFrame,
    args: UnpivotArgsIR,
) -> PolarsResult<LongBlocks<'a>>
    ensures settles { Settles result (unpivot_refusal record {
      table = table_of table.now;
      on = args.on.items;
      index = args.index.items;
      variable = variable_or args.variable_name;
      value = value_or args.value_name;
    }) }
    ensures parts { IfOk result (λ b. b
        ≡ parts_of record {
          table = table_of table.now;
          on = args.on.items;
          index = args.index.items;
          variable = variable_or args.variable_name;
          value = value_or args.value_name;
        }) }
{
    let variable = name_or(&args.variable_name, "variable");
    let value = name_or(&args.value_name, "value");
    blocks_of(alloc, table, &args.on, &args.index, variable, value)
}
