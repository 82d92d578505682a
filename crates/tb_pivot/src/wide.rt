//! Tables made wide.
ghost use Rattle.std.specs.Prelude.{◌≡◌, ◌≤◌, ◌<◌, true, IfOk, length};
ghost use Rattle.std.specs.List.{All};
ghost use Rattle.tb_value.specs.Promise.Refusals.{first_cause};
ghost use Rattle.tb_value.specs.Refusals.{Settles};
ghost use Rattle.tb_frame.specs.Promise.Table.{table_of};
ghost use Rattle.tb_pivot.specs.Layout.{laid_out, IsLayout};
ghost use Rattle.tb_pivot.specs.Lookup.{AreAsHigh, chosen_of};
ghost use Rattle.tb_pivot.specs.Made.{takes};
ghost use Rattle.tb_pivot.specs.Promise.Pivot.{wide};
ghost use Rattle.tb_pivot.specs.Promise.Refusal.{value_causes};

use crate::blocks::Layout;
use crate::lookup::WideColumns;
use crate::maker::CellMaker;
use std::alloc::Global;
use tb_frame::DataFrame;
use tb_value::{MAX_ROWS, PolarsResult};

// The table of a layout.
fn laid_table<M: CellMaker>(
    alloc: Global,
    layout: &Layout<'_, '_>,
    maker: &M,
) -> PolarsResult<DataFrame>
    requires ready { M.IsReady maker.now }
    requires layout { IsLayout layout.now }
    requires taken { All (λ c. takes (M.way maker.now) c.now.kind ≡ true)
        layout.now.columns.now.values.items }
    requires some { 0 < length layout.now.columns.now.values.items }
    ensures settles { Settles result
        (first_cause (value_causes (laid_out layout.now (M.way maker.now)))) }
    ensures table { IfOk result (λ t. table_of t ≡ wide (laid_out layout.now (M.way maker.now))) }
{
    layout.check_rows(maker)?;
    let blocks = layout.group_values(alloc, maker)?;
    layout.check_names(alloc)?;
    DataFrame::new(alloc, layout.columns(alloc, &blocks)?)
}

/// The table made wide: a row for each distinct row of the index, and for each value column a column for each distinct
/// header. Without value columns it is empty.
///
/// # Errors
///
/// The first of these that holds, or `OutOfMemory`:
/// 1. `ManyInGroup`: a cell of several rows, where each is to have one;
/// 2. what the maker says of the first value column of which it makes no cells;
/// 3. `Duplicate`: two columns of the answer would have this name.
pub(crate) fn wide<M: CellMaker>(
    alloc: Global,
    height: usize,
    columns: &WideColumns<'_>,
    maker: &M,
    sorts: bool,
    separator: &str,
) -> PolarsResult<DataFrame>
    requires ready { M.IsReady maker.now }
    requires few { height ≤ MAX_ROWS }
    requires high { AreAsHigh height columns.now }
    requires taken { All (λ c. takes (M.way maker.now) c.now.kind ≡ true) columns.now.values.items }
    ensures settles { Settles result
        (first_cause
        (value_causes (chosen_of height columns.now sorts (M.way maker.now) separator.now))) }
    ensures table { IfOk result (λ t.
        table_of t ≡ wide (chosen_of height columns.now sorts (M.way maker.now) separator.now)) }
{
    if columns.values.is_empty() {
        return DataFrame::new(alloc, Vec::new(alloc));
    }
    let layout = Layout::of(alloc, height, columns, sorts, separator)?;
    laid_table(alloc, &layout, maker)
}
