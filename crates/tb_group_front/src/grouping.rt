//! Groupings over texts.
ghost use Rattle.std.specs.Prelude.{◌≡◌, length, IfOk};
ghost use Rattle.tb_value.specs.Refusals as causes;
ghost use Rattle.tb_value.specs.Promise.Refusals.{first_cause};
ghost use Rattle.tb_frame.specs.Promise.Table.{table_of};
ghost use Rattle.tb_group.specs.Promise.Group.{group_table};
ghost use Rattle.tb_group.specs.Promise.Refusal.{group_refusal};
ghost use Rattle.tb_front.specs.Promise.Faults.{Settles};
ghost use Rattle.tb_front.specs.Promise.Texts.{table_in, text_in};
ghost use Rattle.tb_group_front.specs.Promise.Grouped.{asked_groups, group_fault, group_faults, grouped_table, in_asked_order};

use crate::call::GroupCall;
use crate::comparing::check_decimals;
use crate::sorting::sorted;
use std::alloc::Global;
use std::thread::Threads;
use tb_frame::DataFrame;
use tb_front::{FrontFault, TextOptions, read_table, written};
use tb_group::group_by;
use tb_pool::{Exec, OpenGate};
use tb_text::Text;
use tb_value::{OutOfMemory, PolarsResult};

// The groups of the table, which is let go.
fn groups_of(
    rt: &(impl Threads + Sync),
    alloc: Global,
    table: DataFrame,
    call: &GroupCall,
    exec: &Exec,
) -> PolarsResult<DataFrame>
    ensures settles { causes.Settles result
        (group_refusal (asked_groups call.now (table_of table))) }
    ensures table { IfOk result (λ t.
        table_of t ≡ group_table (asked_groups call.now (table_of table))) }
{
    let (groups, _parts) = group_by(rt, alloc, &table, &call.by, &call.aggs, exec, &OpenGate)?;
    Ok(groups)
}

// The groups in the order that is asked.
fn in_asked_order(
    alloc: Global,
    groups: DataFrame,
    call: &GroupCall,
) -> Result<DataFrame, OutOfMemory>
    ensures { IfOk result (λ t.
        table_of t
        ≡ in_asked_order call.now.sorts (length call.now.by.items) (table_of groups)) }
{
    if call.sorts {
        sorted(alloc, &groups, call.by.len())
    } else {
        Ok(groups)
    }
}

fn grouped(
    rt: &(impl Threads + Sync),
    alloc: Global,
    table: DataFrame,
    call: &GroupCall,
    exec: &Exec,
) -> PolarsResult<DataFrame>
    ensures settles { causes.Settles result
        (group_refusal (asked_groups call.now (table_of table))) }
    ensures table { IfOk result (λ t. table_of t ≡ grouped_table call.now (table_of table)) }
{
    let groups = groups_of(rt, alloc, table, call, exec)?;
    Ok(in_asked_order(alloc, groups, call)?)
}

fn grouped_text(
    rt: &(impl Threads + Sync),
    alloc: Global,
    table: DataFrame,
    call: &GroupCall,
    options: &TextOptions,
) -> Result<Text, FrontFault>
    ensures settles { Settles result
        (first_cause (group_faults options.now call.now (table_of table))) }
    ensures answer { IfOk result (λ t. t
        ≡ text_in options.now.form options.now.csv.separator
        (grouped_table call.now (table_of table))) }
{
    check_decimals(alloc, &options.csv.types, call, &table)?;
    let outcome = grouped(rt, alloc, table, call, &options.exec);
    written(rt, alloc, options.form, options.csv.separator, outcome)
}

/// Groups the table that a text of comma-separated values is: a row for each group, in the order of the groups' first rows or, where
/// that is asked, of their values in the columns by which rows are grouped, an absent value first. The text is let go once it is
/// read, and its table before the groups are put in order. Texts that look like decimal numbers are not compared: a column all of
/// whose values do, the empty text and absent ones apart, has no least or greatest value and puts no rows in order, unless a type is
/// given for its name.
///
/// # Errors
///
/// The first of these that holds, or `OutOfMemory`: 1 `NoTable`, as `records_of_csv` refuses the text, 2 `UnknownType` of a name that
/// no column has, 3 `NoTable`, where a field isn't of the type of its column, 4 `Decimals` of the first such column of whose values
/// the least or greatest is asked, 5 `Decimals` of the first such column by which rows are put in order, 6 `Refused`, as `group_by`
/// refuses, 7 `NoText`.
pub fn group_text(
    rt: &(impl Threads + Sync),
    alloc: Global,
    text: Vec<u8>,
    call: &GroupCall,
    options: &TextOptions,
) -> Result<Text, FrontFault>
    ensures settles { Settles result (group_fault options.now call.now text.items) }
    ensures answer { IfOk result (λ t. t
        ≡ text_in options.now.form options.now.csv.separator
        (grouped_table call.now (table_in options.now.csv text.items))) }
{
    let table = read_table(rt, alloc, &options.csv, text)?;
    grouped_text(rt, alloc, table, call, options)
}
