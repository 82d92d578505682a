//! The operations over texts.
ghost use Rattle.std.specs.Prelude.{◌≡◌, Err, IfOk, MatchResult, Ok};
ghost use Rattle.tb_value.specs.Promise.Refusals.{first_cause};
ghost use Rattle.tb_frame.specs.Promise.Table.{table_of};
ghost use Rattle.tb_unpivot.specs.Promise.Unpivot.{unpivot_table};
ghost use Rattle.tb_dummies.specs.Promise.Dummies.{dummies_table};
ghost use Rattle.tb_pivot.specs.Promise.Pivot.{pivot_table};
ghost use Rattle.tb_calls.specs.Promise.Asked.{joined_of, long_of, wide_of};
ghost use Rattle.tb_front.specs.Promise.Asked.{IsAnswerText, asked_join, dummies_fault, dummies_faults, join_fault, joining_fault, marked_of, pivot_fault, pivot_faults, unpivot_fault, unpivot_faults};
ghost use Rattle.tb_front.specs.Promise.Faults.{Settles};
ghost use Rattle.tb_front.specs.Promise.Texts.{table_in, text_in};

use crate::fault::FrontFault;
use crate::keys::check_keys;
use crate::long::long_csv;
use crate::marking::with_names;
use crate::options::{TextForm, TextOptions};
use crate::pivoting::check_decimals;
use crate::reading::{TwoTables, read_table, read_tables};
use crate::watch::Watch;
use crate::writing::written;
use std::alloc::Global;
use std::thread::Threads;
use tb_calls::{
    DummiesCall, JoinCall, PivotCall, UnpivotArgsIR, joined_traced, made_long, made_wide,
    with_dummies,
};
use tb_frame::DataFrame;
use tb_join::JoinTrace;
use tb_text::Text;
use tb_value::PolarsResult;

// The table of a join, of which the watch is told.
fn watched<W: Watch>(
    outcome: PolarsResult<(DataFrame, JoinTrace)>,
    watch: &mut W,
) -> PolarsResult<DataFrame>
    ensures { MatchResult outcome (λ r. result ≡ Ok r.0) (λ e. result ≡ Err e) }
{
    match outcome {
        Ok((table, trace)) => {
            watch.joined(table.height(), &trace);
            Ok(table)
        }
        Err(error) => Err(error),
    }
}

fn join_tables<W: Watch>(
    rt: &(impl Threads + Sync),
    alloc: Global,
    tables: TwoTables,
    call: JoinCall,
    options: &TextOptions,
    watch: &mut W,
) -> Result<Text, FrontFault>
    ensures settles { Settles result
        (joining_fault options.now.form call (table_of tables.left) (table_of tables.right)) }
    ensures answer { IfOk result (λ t. IsAnswerText options.now
        (joined_of call (table_of tables.left) (table_of tables.right)) t) }
{
    let TwoTables { left, right } = tables;
    check_keys(alloc, &left, &right, &call.left_on, &call.right_on)?;
    watch.read(left.height(), right.height());
    let outcome = joined_traced(rt, alloc, left, right, call, &options.exec);
    let outcome = watched(outcome, watch);
    written(rt, alloc, options.form, options.csv.separator, outcome)
}

/// Joins the tables that two texts of comma-separated values are. A key has the type that is given for its name, or the one that
/// both texts tell together, as `types_with_keys` of `tb_csv` has it. The texts are let go once both are read, and the tables before
/// the answer's text is made. That text is the one of a table that answers the request, in the form that is asked. The watch is told how
/// far the join is.
///
/// # Errors
///
/// The first of these that holds, or `OutOfMemory`: 1 `NoTable` of the first text, as `records_of_csv` refuses it, 2 the same of the
/// second, 3 `UnknownType` of a name that no column of either has, 4 `NoTable` of the first text, where a field isn't of the type of
/// its column, 5 the same of the second, 6 `KeyTypes` of the first key whose columns are of different types, 7 `Refused`, as the join
/// refuses, 8 `NoText`.
pub fn join_texts<W: Watch>(
    rt: &(impl Threads + Sync),
    alloc: Global,
    left: Vec<u8>,
    right: Vec<u8>,
    call: JoinCall,
    options: &TextOptions,
    watch: &mut W,
) -> Result<Text, FrontFault>
    ensures settles { Settles result (join_fault options.now call left.items right.items) }
    ensures answer { IfOk result (λ t.
        IsAnswerText options.now (asked_join options.now.csv call left.items right.items) t) }
{
    let tables = read_tables(
        rt,
        alloc,
        &options.csv,
        left,
        right,
        &call.left_on,
        &call.right_on,
    )?;
    join_tables(rt, alloc, tables, call, options, watch)
}

fn long_text(
    rt: &(impl Threads + Sync),
    alloc: Global,
    table: DataFrame,
    call: UnpivotArgsIR,
    options: &TextOptions,
) -> Result<Text, FrontFault>
    ensures settles { Settles result
        (first_cause (unpivot_faults options.now.form call (table_of table))) }
    ensures answer { IfOk result (λ t. t
        ≡ text_in options.now.form options.now.csv.separator
        (unpivot_table (long_of call (table_of table)))) }
{
    match options.form {
        TextForm::Csv => long_csv(rt, alloc, &table, call, options.csv.separator),
        _ => {
            let outcome = made_long(alloc, table, call);
            written(rt, alloc, options.form, options.csv.separator, outcome)
        }
    }
}

/// Makes the table long that a text of comma-separated values is.
///
/// # Errors
///
/// The first of these that holds, or `OutOfMemory`: 1 `NoTable`, as `records_of_csv` refuses the text, 2 `UnknownType` of a name that
/// no column has, 3 `NoTable`, where a field isn't of the type of its column, 4 `Refused`, as `unpivot2` refuses, 5 `NoText`.
pub fn unpivot_text(
    rt: &(impl Threads + Sync),
    alloc: Global,
    text: Vec<u8>,
    call: UnpivotArgsIR,
    options: &TextOptions,
) -> Result<Text, FrontFault>
    ensures settles { Settles result (unpivot_fault options.now call text.items) }
    ensures answer { IfOk result (λ t. t
        ≡ text_in options.now.form options.now.csv.separator
        (unpivot_table (long_of call (table_in options.now.csv text.items)))) }
{
    let table = read_table(rt, alloc, &options.csv, text)?;
    long_text(rt, alloc, table, call, options)
}

fn marked_text(
    rt: &(impl Threads + Sync),
    alloc: Global,
    table: DataFrame,
    call: DummiesCall,
    options: &TextOptions,
) -> Result<Text, FrontFault>
    ensures settles { Settles result
        (first_cause (dummies_faults options.now.form call (table_of table))) }
    ensures answer { IfOk result (λ t. t
        ≡ text_in options.now.form options.now.csv.separator
        (dummies_table (marked_of call (table_of table)))) }
{
    let call = with_names(alloc, &table, call)?;
    let outcome = with_dummies(alloc, table, call);
    written(rt, alloc, options.form, options.csv.separator, outcome)
}

/// Replaces columns by dummies in the table that a text of comma-separated values is: those that are named, or else those of texts
/// and of truth values.
///
/// # Errors
///
/// The first of these that holds, or `OutOfMemory`: 1 `NoTable`, as `records_of_csv` refuses the text, 2 `UnknownType` of a name that
/// no column has, 3 `NoTable`, where a field isn't of the type of its column, 4 `Refused`, as `_to_dummies` refuses, 5 `NoText`.
pub fn dummies_text(
    rt: &(impl Threads + Sync),
    alloc: Global,
    text: Vec<u8>,
    call: DummiesCall,
    options: &TextOptions,
) -> Result<Text, FrontFault>
    ensures settles { Settles result (dummies_fault options.now call text.items) }
    ensures answer { IfOk result (λ t. t
        ≡ text_in options.now.form options.now.csv.separator
        (dummies_table (marked_of call (table_in options.now.csv text.items)))) }
{
    let table = read_table(rt, alloc, &options.csv, text)?;
    marked_text(rt, alloc, table, call, options)
}

fn wide_text(
    rt: &(impl Threads + Sync),
    alloc: Global,
    table: DataFrame,
    call: PivotCall,
    options: &TextOptions,
) -> Result<Text, FrontFault>
    ensures settles { Settles result
        (first_cause (pivot_faults options.now call (table_of table))) }
    ensures answer { IfOk result (λ t. t
        ≡ text_in options.now.form options.now.csv.separator
        (pivot_table (wide_of call (table_of table)))) }
{
    check_decimals(alloc, &options.csv.types, &call, &table)?;
    let outcome = made_wide(alloc, table, call);
    written(rt, alloc, options.form, options.csv.separator, outcome)
}

/// Makes the table wide that a text of comma-separated values is. Texts that look like decimal numbers are not compared: a column
/// all of whose values do, the empty text and absent ones apart, has no least or greatest value and gives no names that are sorted,
/// unless a type is given for its name.
///
/// # Errors
///
/// The first of these that holds, or `OutOfMemory`: 1 `NoTable`, as `records_of_csv` refuses the text, 2 `UnknownType` of a name that
/// no column has, 3 `NoTable`, where a field isn't of the type of its column, 4 `Decimals` of the first such column of whose values
/// the least or greatest is asked, 5 `Decimals` of the first such column whose values name columns that are sorted, 6 `Refused`, as
/// `pivot_by` refuses, 7 `NoText`.
pub fn pivot_text(
    rt: &(impl Threads + Sync),
    alloc: Global,
    text: Vec<u8>,
    call: PivotCall,
    options: &TextOptions,
) -> Result<Text, FrontFault>
    ensures settles { Settles result (pivot_fault options.now call text.items) }
    ensures answer { IfOk result (λ t. t
        ≡ text_in options.now.form options.now.csv.separator
        (pivot_table (wide_of call (table_in options.now.csv text.items)))) }
{
    let table = read_table(rt, alloc, &options.csv, text)?;
    wide_text(rt, alloc, table, call, options)
}
