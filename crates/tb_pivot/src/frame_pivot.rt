//! The calls by which a table is made wide.
ghost use Rattle.std.specs.Prelude.{◌≡◌, ◌++◌, IfOk, length};
ghost use Rattle.std.specs.Option.{option_copied};
ghost use Rattle.tb_value.specs.Promise.Refusals.{first_cause};
ghost use Rattle.tb_value.specs.Refusals.{Settles};
ghost use Rattle.tb_agg.specs.Grouped.{AreGroupsOf};
ghost use Rattle.tb_chunk.specs.Promise.Col as columns;
ghost use Rattle.tb_frame.specs.Promise.Table.{table_of};
ghost use Rattle.tb_pivot.specs.Lent.{lent_request, stable_request};
ghost use Rattle.tb_pivot.specs.Promise.Pivot.{pivot_table};
ghost use Rattle.tb_pivot.specs.Promise.Refusal.{pivot_refusal};
ghost use Rattle.tb_pivot.specs.Answered.{Gives};
ghost use Rattle.tb_frame.specs.Promise.Table.{plain_column};
ghost use Rattle.tb_pivot.specs.Promise.Pivot.{answer_of};
ghost use Rattle.tb_pivot.specs.Promise.Request.{asked, way_of};

use crate::asking::{Asked, Told, answer_to};
use crate::expr::{PhysicalAggExpr, PivotAgg};
use crate::lookup::found;
use crate::maker::CellMaker;
use crate::naming::request_names;
use crate::whole::wide_of_chunks;
use std::alloc::Global;
use std::marker::{Brand, PhantomData};
use tb_agg::Aggregate;
use tb_frame::DataFrame;
use tb_label::given_separator;
use tb_rows::Groups;
use tb_store::Series;
use tb_value::{PlSmallStr, PolarsResult};

/// The table made wide: a row for each distinct row of the index columns, and for each value column a column for each
/// distinct row of the columns `on`, in the order in which these rows stand first. A cell is what `maker` makes of the
/// value column's rows with that index and that header, and Null where there are none. Its column is called by the
/// header, and where there are several value columns by the value column's name, the separator (`_` where none is given)
/// and the header. `sort_columns` puts the columns of each value column in the order of their names' bytes. The index
/// columns stand first. Without value columns there is no column at all. `maker` is ready: an aggregate always is.
///
/// Where no index is given it is the columns that are neither in `on` nor in `values`; where no values are given they are
/// the columns that are neither in `on` nor in `index`.
///
/// # Errors
///
/// The first of these that holds, or `OutOfMemory`:
/// 1. `BothNone`: neither index nor values are given;
/// 2. `EmptyIndex`: the index has no name;
/// 3. `EmptyOn`: `on` has no name;
/// 4. `ColumnNotFound`: a name is of no column, in `on`, then in the index, then in the values;
/// 5. `Duplicate`: a name stands twice in `on` followed by the index, and then in the values;
/// 6. `BraceName`: `on` has several names, and a column is called by them in quotes and braces;
/// 7. `HeaderType`: a column of `on` is not of type Null, Boolean, a whole number or String;
/// 8. `AggType`: `maker` doesn't take the type of a value column;
/// 9. `ManyInGroup`: a cell is to have one row, there is a value column, and a cell has several rows;
/// 10. `SumRange`: a sum is outside the range of its type;
/// 11. `Evaluate` or `EvaluateLength`: a caller's object refused, or answered another number of values than there are
///     cells with rows;
/// 12. `Duplicate`: two columns of the answer would have this name.
pub fn pivot_by<M: CellMaker>(
    alloc: Global,
    table: &DataFrame,
    on: &[PlSmallStr],
    index: Option<&[PlSmallStr]>,
    values: Option<&[PlSmallStr]>,
    sort_columns: bool,
    maker: &M,
    separator: Option<&str>,
) -> PolarsResult<DataFrame>
    requires { M.IsReady maker.now }
    ensures settles { Settles result (pivot_refusal
        (lent_request table.now on.now (option_copied index.entry) (option_copied values.entry)
        sort_columns (M.way maker.now) separator.entry)) }
    ensures table { IfOk result (λ t. table_of t ≡ pivot_table
        (lent_request table.now on.now (option_copied index.entry) (option_copied values.entry)
        sort_columns (M.way maker.now) separator.entry)) }
{
    let names = request_names(alloc, table, on, index, values)?;
    let columns = found(alloc, table, on, &names.index, &names.values, maker)?;
    let height = table.height();
    wide_of_chunks(
        alloc,
        height,
        &columns,
        maker,
        sort_columns,
        given_separator(separator),
    )
}

// The same of a caller's object, of which it is told what it answers.
fn pivot_asked<K: Told>(
    alloc: Global,
    table: &DataFrame,
    on: &[PlSmallStr],
    index: Option<&[PlSmallStr]>,
    values: Option<&[PlSmallStr]>,
    sort_columns: bool,
    expr: &dyn PhysicalAggExpr,
    separator: Option<&str>,
) -> PolarsResult<DataFrame>
    requires name { K.told_name ≡ named expr.now }
    requires answers { K.told_answers ≡ answers expr.now }
    ensures settles { Settles result (pivot_refusal
        (lent_request table.now on.now (option_copied index.entry) (option_copied values.entry)
        sort_columns (asked K.told_name K.told_answers) separator.entry)) }
    ensures table { IfOk result (λ t. table_of t ≡ pivot_table
        (lent_request table.now on.now (option_copied index.entry) (option_copied values.entry)
        sort_columns (asked K.told_name K.told_answers) separator.entry)) }
{
    let ask = |alloc: Global, column: &Series, groups: &Groups| -> PolarsResult<Series>
        requires { AreGroupsOf (length (columns.values column.now)) groups.now }
        ensures { Gives result
            (answer_of groups.now.firsts.items groups.now.numbers.items (plain_column column.now)
            (named expr.entry.now) (answers expr.entry.now)) }
    { answer_to(alloc, expr, column, groups) };
    let maker = Asked::<K, _> {
        ask,
        told: PhantomData,
    };
    pivot_by(
        alloc,
        table,
        on,
        index,
        values,
        sort_columns,
        &maker,
        separator,
    )
}

/// The table made wide, as `pivot_by` does, of cells that `agg_fn` makes: by an aggregate, or by a caller's object. The
/// object is asked once for each value column, for all groups of rows by index and header: it is given the column as the
/// only one of a table, under the name that it asks for, and answers one value for each group. Without `agg_fn` a cell is
/// the value of its one row.
///
/// # Errors
///
/// Those of `pivot_by`, in their order.
pub fn pivot_stable(
    alloc: Global,
    pivot_df: &DataFrame,
    on: &[PlSmallStr],
    index: Option<&[PlSmallStr]>,
    values: Option<&[PlSmallStr]>,
    sort_columns: bool,
    agg_fn: Option<&PivotAgg>,
    separator: Option<&str>,
) -> PolarsResult<DataFrame>
    ensures settles { Settles result (pivot_refusal
        (stable_request ⟦<dyn PhysicalAggExpr as PhysicalAggExpr>⟧ pivot_df.now on.now
        index.entry values.entry sort_columns agg_fn.entry separator.entry)) }
    ensures table { IfOk result (λ t. table_of t ≡ pivot_table
        (stable_request ⟦<dyn PhysicalAggExpr as PhysicalAggExpr>⟧ pivot_df.now on.now
        index.entry values.entry sort_columns agg_fn.entry separator.entry)) }
{
    match agg_fn {
        Some(PivotAgg::Expr(expr)) => pivot_asked::<Brand>(
            alloc,
            pivot_df,
            on,
            index,
            values,
            sort_columns,
            &**expr,
            separator,
        ),
        Some(agg) => {
            let aggregate = agg.aggregate();
            pivot_by(
                alloc,
                pivot_df,
                on,
                index,
                values,
                sort_columns,
                &aggregate,
                separator,
            )
        }
        None => {
            let aggregate: Option<Aggregate> = None;
            pivot_by(
                alloc,
                pivot_df,
                on,
                index,
                values,
                sort_columns,
                &aggregate,
                separator,
            )
        }
    }
}

/// As `pivot_stable`: rows and headers stand in the order in which they come first in the table.
///
/// # Errors
///
/// Those of `pivot_by`, in their order.
pub fn pivot(
    alloc: Global,
    pivot_df: &DataFrame,
    on: &[PlSmallStr],
    index: Option<&[PlSmallStr]>,
    values: Option<&[PlSmallStr]>,
    sort_columns: bool,
    agg_fn: Option<&PivotAgg>,
    separator: Option<&str>,
) -> PolarsResult<DataFrame>
    ensures settles { Settles result (pivot_refusal
        (stable_request ⟦<dyn PhysicalAggExpr as PhysicalAggExpr>⟧ pivot_df.now on.now
        index.entry values.entry sort_columns agg_fn.entry separator.entry)) }
    ensures table { IfOk result (λ t. table_of t ≡ pivot_table
        (stable_request ⟦<dyn PhysicalAggExpr as PhysicalAggExpr>⟧ pivot_df.now on.now
        index.entry values.entry sort_columns agg_fn.entry separator.entry)) }
{
    pivot_stable(
        alloc,
        pivot_df,
        on,
        index,
        values,
        sort_columns,
        agg_fn,
        separator,
    )
}
