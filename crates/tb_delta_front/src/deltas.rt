//! A join of two texts that is kept through the steps of a third.
ghost use Rattle.std.specs.Prelude.{◌≡◌, ◌++◌, ◌∷◌, [], All, IfOk, OnOk, true};
ghost use Rattle.tb_frame.specs.Promise.Table.{schema_of, table_of};
ghost use Rattle.tb_delta.specs.Promise.Now.{now, view_refusal};
ghost use Rattle.tb_delta.specs.Promise.Steps.{after};
ghost use Rattle.tb_delta.specs.Running.{step_of, steps_of};
ghost use Rattle.tb_delta_front.specs.Deltas.{changes_of};
ghost use Rattle.tb_delta_front.specs.Keeping.{fault_at, step_row, IsKept, IsStepped};
ghost use Rattle.tb_delta_front.specs.Promise.Deltas as due;
ghost use Rattle.tb_front.specs.Promise.Asked.{IsAnswerText};
ghost use Rattle.tb_delta_front.specs.Promise.Deltas.{asked_of, asked_steps, changed_text, end_fault, end_faults, kept_behind, kept_from, state_of, steps_done, steps_fault, IsEndText};
ghost use Rattle.tb_front.specs.Promise.Due.{Gives};
ghost use Rattle.tb_front.specs.Promise.Faults.{Settles, key_clash, refusal_fault};
ghost use Rattle.tb_delta_front.specs.Promise.Steps.{steps_in, Fits};
ghost use Rattle.tb_front.specs.Tables.{tables_view};

use crate::change::Change;
use crate::changes::{changes_text, push_pairs};
use crate::step_reading::steps_of;
use std::alloc::Global;
use std::slice;
use std::thread::Threads;
use tb_csv::CsvOptions;
use tb_delta::{DeltaFault, JoinRun, JoinView, Step};
use tb_front::{
    FrontFault, StepCause, TextOptions, TwoTables, check_keys, next_number, read_tables, refused,
    written,
};
use tb_text::Text;
use tb_value::{PlSmallStr, Side};

/// What is asked of two tables whose join is kept.
#[derive(Drop)]
pub struct DeltaCall {
    /// The name of the left table's key.
    pub left_on: PlSmallStr,
    /// The name of the right table's key.
    pub right_on: PlSmallStr,
    /// Whether absent keys match.
    pub join_nulls: bool,
}

// The row that a step puts in or takes out.
#[derive(Clone, Copy)]
struct StepRow {
    comes: bool,
    side: Side,
    id: u32,
}

fn step_row(run: &JoinRun, step: &Step) -> StepRow
    ensures { result ≡ step_row run.now (step_of step.now) }
{
    match step {
        Step::Insert { side, .. } => StepRow {
            comes: true,
            side: *side,
            id: run.next_id(*side),
        },
        Step::Remove { side, id } => StepRow {
            comes: false,
            side: *side,
            id: *id,
        },
    }
}

// Why a step that fits is not done.
fn fault_at(line: usize, row: StepRow, fault: DeltaFault) -> FrontFault
    ensures { result ≡ fault_at line row fault }
{
    match fault {
        DeltaFault::OutOfMemory => FrontFault::OutOfMemory,
        DeltaFault::NoRow => {
            let cause = StepCause::NoRow(row.side, row.id);
            FrontFault::Step { line, cause }
        }
        DeltaFault::Full | DeltaFault::Schema => {
            let cause = StepCause::Full;
            FrontFault::Step { line, cause }
        }
    }
}

// Does a step, and tells the pairs of its row with its partners, where pairs are kept.
fn do_step(
    alloc: Global,
    run: &mut JoinRun,
    keeps: bool,
    line: usize,
    step: Step,
    changes: &mut Vec<Change>,
) -> Result<(), FrontFault>
    requires { Fits run.old.left.columns run.old.right.columns (step_of step) }
    ensures { IsStepped keeps line run.old (step_of step) run.new (changes_of changes.old.items)
        (changes_of changes.new.items) result }
{
    let row = step_row(run, &step);
    match run.step(alloc, step, keeps) {
        Ok(others) => {
            push_pairs(changes, line as u64, row.comes, row.side, row.id, &others)?;
            Ok(())
        }
        Err(fault) => Err(fault_at(line, row, fault)),
    }
}

// Does the steps, which fit, in their order, up to the first that is refused.
fn do_steps(
    alloc: Global,
    run: &mut JoinRun,
    keeps: bool,
    steps: Vec<Step>,
    changes: &mut Vec<Change>,
) -> Result<(), FrontFault>
    requires { All (Fits run.old.left.columns run.old.right.columns) (steps_of steps.items) }
    ensures settles { Settles result (steps_fault 1 run.old (steps_of steps.items)) }
    ensures state { OnOk result (run.new ≡ after run.old (steps_of steps.items)) }
    ensures told { keeps ≡ true
        → OnOk result
        (changes_of changes.new.items
        ≡ changes_of changes.old.items ++ due.changes 1 run.old (steps_of steps.items)) }
{
    let mut line = 1;
    for step in steps {
        let next = next_number(line)?;
        match do_step(alloc, run, keeps, line, step, changes) {
            Ok(()) => line = next,
            Err(fault) => return Err(fault),
        }
    }
    Ok(())
}

// A view of the rows behind all steps, and what they changed, where that is kept.
#[derive(Drop)]
pub(crate) struct KeptRows {
    pub view: JoinView,
    pub changes: Vec<Change>,
}

// The rows of a view behind steps, which fit.
fn kept_view(
    alloc: Global,
    view: JoinView,
    steps: Vec<Step>,
    keeps: bool,
) -> Result<KeptRows, FrontFault>
    requires { All (Fits view.left.columns view.right.columns) (steps_of steps.items) }
    ensures { IsKept keeps (steps_done view (steps_of steps.items)) result }
{
    let mut run = JoinRun::new(alloc, view);
    let mut changes = Vec::new(alloc);
    match do_steps(alloc, &mut run, keeps, steps, &mut changes) {
        Ok(()) => Ok(KeptRows {
            view: run.into_view(),
            changes,
        }),
        Err(fault) => Err(fault),
    }
}

// The view of the rows of two tables, which are let go.
fn view_of(alloc: Global, tables: TwoTables, call: &DeltaCall) -> Result<JoinView, FrontFault>
    ensures settles { Settles result
        (refusal_fault (view_refusal (state_of call.now (tables_view tables)))) }
    ensures view { IfOk result (λ v. v ≡ state_of call.now (tables_view tables)) }
{
    let TwoTables { left, right } = tables;
    let left_on = call.left_on.as_str();
    let right_on = call.right_on.as_str();
    match JoinView::from_tables(alloc, &left, &right, left_on, right_on, call.join_nulls) {
        Ok(view) => Ok(view),
        Err(error) => Err(refused(error)),
    }
}

// The rows of two tables, which are let go, behind steps, which fit.
fn kept_steps(
    alloc: Global,
    tables: TwoTables,
    steps: Vec<Step>,
    call: &DeltaCall,
    keeps: bool,
) -> Result<KeptRows, FrontFault>
    requires { All (Fits (schema_of (table_of tables.left)) (schema_of (table_of tables.right)))
        (steps_of steps.items) }
    ensures { IsKept keeps (kept_from call.now (tables_view tables) (steps_of steps.items)) result }
{
    match view_of(alloc, tables, call) {
        Ok(view) => kept_view(alloc, view, steps, keeps),
        Err(fault) => Err(fault),
    }
}

fn read_steps(alloc: Global, tables: &TwoTables, steps: &[u8]) -> Result<Vec<Step>, FrontFault>
    ensures value { Gives (λ v. steps_of v.items) result
        (steps_in (schema_of (table_of tables.now.left)) (schema_of (table_of tables.now.right))
        steps.now) }
    ensures fit { IfOk result (λ v.
        All (Fits (schema_of (table_of tables.now.left)) (schema_of (table_of tables.now.right)))
        (steps_of v.items)) }
{
    let left = tables.left.get_columns();
    let right = tables.right.get_columns();
    steps_of(alloc, left, right, steps)
}

// The rows of two tables, whose keys are of one type, behind the steps of a text. The tables are let go.
fn kept_text(
    alloc: Global,
    tables: TwoTables,
    steps: &[u8],
    call: &DeltaCall,
    keeps: bool,
) -> Result<KeptRows, FrontFault>
    ensures { IsKept keeps (kept_behind call.now (tables_view tables) steps.now) result }
{
    match read_steps(alloc, &tables, steps) {
        Ok(steps) => kept_steps(alloc, tables, steps, call, keeps),
        Err(fault) => Err(fault),
    }
}

fn check_key(alloc: Global, tables: &TwoTables, call: &DeltaCall) -> Result<(), FrontFault>
    ensures { Settles result
        (key_clash (table_of tables.now.left) (table_of tables.now.right) (call.now.left_on ∷ [])
        (call.now.right_on ∷ [])) }
{
    let left_on = slice::from_ref(&call.left_on);
    let right_on = slice::from_ref(&call.right_on);
    check_keys(alloc, &tables.left, &tables.right, left_on, right_on)
}

// The rows of two tables, which are let go, behind the steps of a text.
fn kept(
    alloc: Global,
    tables: TwoTables,
    steps: &[u8],
    call: &DeltaCall,
    keeps: bool,
) -> Result<KeptRows, FrontFault>
    ensures { IsKept keeps (asked_of call.now (tables_view tables) steps.now) result }
{
    match check_key(alloc, &tables, call) {
        Ok(()) => kept_text(alloc, tables, steps, call, keeps),
        Err(fault) => Err(fault),
    }
}

// The two tables that the texts are, which are let go.
fn kept_tables(
    rt: &(impl Threads + Sync),
    alloc: Global,
    options: &CsvOptions,
    left: Vec<u8>,
    right: Vec<u8>,
    call: &DeltaCall,
) -> Result<TwoTables, FrontFault>
    ensures { Gives tables_view result
        (due.kept_tables options.now call.now left.items right.items) }
{
    read_tables(
        rt,
        alloc,
        options,
        left,
        right,
        slice::from_ref(&call.left_on),
        slice::from_ref(&call.right_on),
    )
}

// The text of what the steps of a text change of the join of two tables, which are let go.
fn changed_text(
    rt: &(impl Threads + Sync),
    alloc: Global,
    tables: TwoTables,
    steps: &[u8],
    call: &DeltaCall,
    options: &TextOptions,
) -> Result<Text, FrontFault>
    ensures { Gives (λ t. t) result
        (changed_text options.now (asked_of call.now (tables_view tables) steps.now)) }
{
    match kept(alloc, tables, steps, call, true) {
        Ok(kept) => changes_text(rt, alloc, changes_alone(kept), options),
        Err(fault) => Err(fault),
    }
}

// What was changed; the view is let go.
fn changes_alone(kept: KeptRows) -> Vec<Change>
    ensures { result ≡ kept.changes }
{
    let KeptRows { view, changes } = kept;
    drop(view);
    changes
}

/// What steps change of the Inner join of the tables that two texts of comma-separated values are, a row for each pair of rows
/// that comes or goes: the number of the step, counted from 1, `+` or `-`, and the ids of the left and the right row. The rows of
/// a text have the ids 0, 1, 2 and so on, and those that are put in the ids behind. The types of the keys are told from both
/// texts. The steps are lines of JSON: `{"insert":SIDE,"row":{..}}` puts a row last, which has a member for each column and no
/// other, and `{"remove":SIDE,"id":N}` takes the row of an id out, where SIDE is `"left"` or `"right"`. A new row comes with each
/// partner that it has then, and an old one goes with each that it has before.
///
/// # Errors
///
/// The first of these that holds, or `OutOfMemory`: 1 to 6 those of `join_texts`, 7 `Step` of the first line that is no step, 8
/// `Refused`, as `JoinView::from_tables` refuses, 9 `Step` of the first step that isn't done, 10 `Refused` by `TooManyRows`, where the
/// answer has more rows than a table, 11 `NoText`.
pub fn delta_text(
    rt: &(impl Threads + Sync),
    alloc: Global,
    left: Vec<u8>,
    right: Vec<u8>,
    steps: Vec<u8>,
    call: &DeltaCall,
    options: &TextOptions,
) -> Result<Text, FrontFault>
    ensures { Gives (λ t. t) result
        (due.delta_text options.now call.now left.items right.items steps.items) }
{
    match kept_tables(rt, alloc, &options.csv, left, right, call) {
        Ok(tables) => changed_text(rt, alloc, tables, &steps, call, options),
        Err(fault) => Err(fault),
    }
}

// The text of the join of the rows of a view, which is let go.
fn end_text(
    rt: &(impl Threads + Sync),
    alloc: Global,
    view: JoinView,
    options: &TextOptions,
) -> Result<Text, FrontFault>
    ensures settles { Settles result (end_faults options.now.form (now view)) }
    ensures answer { IfOk result (IsAnswerText options.now (now view)) }
{
    let outcome = view.table(rt, alloc, &options.exec);
    drop(view);
    written(rt, alloc, options.form, options.csv.separator, outcome)
}

// The view; what was changed is let go.
fn view_alone(kept: KeptRows) -> JoinView
    ensures { result ≡ kept.view }
{
    let KeptRows { view, changes } = kept;
    drop(changes);
    view
}

// The text of the join of two tables, which are let go, behind the steps of a text.
fn ended_text(
    rt: &(impl Threads + Sync),
    alloc: Global,
    tables: TwoTables,
    steps: &[u8],
    call: &DeltaCall,
    options: &TextOptions,
) -> Result<Text, FrontFault>
    ensures settles { Settles result
        (end_fault options.now.form (asked_of call.now (tables_view tables) steps.now)) }
    ensures answer { IfOk result
        (IsEndText options.now (asked_of call.now (tables_view tables) steps.now)) }
{
    match kept(alloc, tables, steps, call, false) {
        Ok(kept) => end_text(rt, alloc, view_alone(kept), options),
        Err(fault) => Err(fault),
    }
}

/// The joined table of the rows that there are behind all steps, by the left rows and then the right ones, each in the order of
/// their ids. What it is asked is told at `delta_text`.
///
/// # Errors
///
/// The first of these that holds, or `OutOfMemory`: 1 to 9 those of `delta_text`, 10 `Refused` by `TooManyRows`, where more pairs of
/// rows match than a table has rows, 11 `NoText`.
pub fn delta_table_text(
    rt: &(impl Threads + Sync),
    alloc: Global,
    left: Vec<u8>,
    right: Vec<u8>,
    steps: Vec<u8>,
    call: &DeltaCall,
    options: &TextOptions,
) -> Result<Text, FrontFault>
    ensures settles { Settles result
        (end_fault options.now.form
        (asked_steps options.now.csv call.now left.items right.items steps.items)) }
    ensures answer { IfOk result (IsEndText options.now
        (asked_steps options.now.csv call.now left.items right.items steps.items)) }
{
    match kept_tables(rt, alloc, &options.csv, left, right, call) {
        Ok(tables) => ended_text(rt, alloc, tables, &steps, call, options),
        Err(fault) => Err(fault),
    }
}
