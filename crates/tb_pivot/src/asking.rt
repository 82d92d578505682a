//! Asking a caller's object for the values of cells.
ghost use Rattle.std.specs.Prelude.{◌≡◌, ◌∷◌, [], IfOk, None, length};
ghost use Rattle.tb_value.specs.Refusals.{Settles};
ghost use Rattle.tb_agg.specs.Grouped.{AreGroupsOf};
ghost use Rattle.tb_chunk.specs.Promise.Col.{values};
ghost use Rattle.tb_frame.specs.Promise.Table.{height, plain_column, table_of};
ghost use Rattle.tb_pivot.specs.Answered.{error_of, Gives};
ghost use Rattle.tb_pivot.specs.Promise.Pivot.{answer_of, given_column, one_each};

use crate::expr::{ExprFault, PhysicalAggExpr};
use crate::maker::CellMaker;
use std::alloc::Global;
use std::marker::{Brand, PhantomData};
use tb_frame::DataFrame;
use tb_rows::Groups;
use tb_store::{Column, Series};
use tb_value::{ComputeCause, DataType, OutOfMemory, PlSmallStr, PolarsError, PolarsResult};

fn fault_error(fault: ExprFault) -> PolarsError
    ensures { result ≡ error_of fault }
{
    match fault {
        ExprFault::Refused(code) => PolarsError::ComputeError(ComputeCause::Evaluate(code)),
        ExprFault::OutOfMemory => PolarsError::OutOfMemory,
    }
}

// The column under another name, as the only one.
fn named_column(
    alloc: Global,
    column: &Series,
    name: &PlSmallStr,
) -> Result<Vec<Column>, OutOfMemory>
    ensures { IfOk result (λ v. v.items ≡ record column.now { name = name.now } ∷ []) }
{
    let mut named = column.copy(alloc)?;
    named.rename(name.copy(alloc)?);
    Ok(vec![in alloc; named.into_column()]?)
}

// The column under another name, as a table.
fn named_table(alloc: Global, column: &Series, name: &PlSmallStr) -> PolarsResult<DataFrame>
    ensures settles { Settles result None }
    ensures table { IfOk result (λ t.
        table_of t ≡ record (plain_column column.now) { name = name.now } ∷ []) }
{
    DataFrame::new(alloc, named_column(alloc, column, name)?)
}

// Refuses a column that has another number of values than there are groups (EvaluateLength).
fn one_each(column: Series, groups: &Groups) -> PolarsResult<Series>
    ensures { Gives result (one_each (length groups.now.firsts.items) (plain_column column)) }
{
    let values = column.len();
    if values == groups.firsts().len() {
        return Ok(column);
    }
    Err(PolarsError::ComputeError(ComputeCause::EvaluateLength {
        groups: groups.firsts().len(),
        values,
    }))
}

// What the object answers for a table.
fn evaluated(
    alloc: Global,
    expr: &dyn PhysicalAggExpr,
    table: &DataFrame,
    groups: &Groups,
) -> PolarsResult<Series>
    requires { AreGroupsOf (height (table_of table.now)) groups.now }
    ensures { Gives result
        (given_column (length groups.now.firsts.items)
        (answers expr.now (table_of table.now) groups.now.firsts.items
        groups.now.numbers.items)) }
{
    match expr.evaluate(alloc, table, groups) {
        Ok(column) => one_each(column, groups),
        Err(fault) => Err(fault_error(fault)),
    }
}

// What the object answers for the column under the name that it asks for.
pub(crate) fn answer_to(
    alloc: Global,
    expr: &dyn PhysicalAggExpr,
    column: &Series,
    groups: &Groups,
) -> PolarsResult<Series>
    requires { AreGroupsOf (length (values column.now)) groups.now }
    ensures { Gives result
        (answer_of groups.now.firsts.items groups.now.numbers.items (plain_column column.now)
        (named expr.now) (answers expr.now)) }
{
    let name = match expr.root_name() {
        Ok(name) => name,
        Err(fault) => return Err(fault_error(fault)),
    };
    let table = named_table(alloc, column, name)?;
    evaluated(alloc, expr, &table, groups)
}

/// What a caller's object answers, as contracts see it.
pub(crate) trait Told {
    ghost use Rattle.std.specs.Prelude.{ℕ, List, Result};
    ghost use Rattle.tb_value.specs.Promise.Names.{Name};
    ghost use Rattle.tb_frame.specs.Promise.Table.{Table, TableColumn};

    ghost told_name: { Result Name ℕ };

    ghost told_answers: { Table → List ℕ → List ℕ → Result TableColumn ℕ };
}

impl Told for Brand {
    ghost use Rattle.std.specs.Prelude.{Err};

    ghost told_name = { Err 0 };

    ghost told_answers = { λ table firsts numbers. Err 0 };
}

/// Cells are made by a call that asks a caller's object. It is asked once for each value column and for all groups, is
/// given the column as the only one of a table, under the name that it asks for, and answers one value for each group.
#[derive(Drop)]
pub(crate) struct Asked<K: Told, F: Fn(Global, &Series, &Groups) -> PolarsResult<Series>> {
    pub(crate) ask: F,
    pub(crate) told: PhantomData<K>,
}

impl<K: Told, F: Fn(Global, &Series, &Groups) -> PolarsResult<Series>> CellMaker for Asked<K, F> {
    ghost use Rattle.std.specs.Prelude.{Result, length};
    ghost use Rattle.std.specs.Borrow.{Bor};
    ghost use Rattle.tb_value.specs.declared.error.PolarsError.{PolarsError};
    ghost use Rattle.tb_agg.specs.Grouped.{AreGroupsOf};
    ghost use Rattle.tb_chunk.specs.Promise.Col.{Col, values};
    ghost use Rattle.tb_frame.specs.Promise.Table.{plain_column};
    ghost use Rattle.tb_rows.specs.declared.groups.Groups.{Groups};
    ghost use Rattle.tb_pivot.specs.Answered.{Gives};
    ghost use Rattle.tb_pivot.specs.Promise.Pivot.{answer_of};
    ghost use Rattle.tb_pivot.specs.Promise.Request.{asked};

    ghost way = { λ _. asked K.told_name K.told_answers };

    ghost IsReady = { λ maker. ((alloc : _) (c : Bor Col) (g : Bor Groups) → AreGroupsOf (length (values c.now)) g.now
        → F.pre maker.ask alloc c g)
        × ((alloc : _) (c : Bor Col) (g : Bor Groups) (r : Result Col PolarsError) → F.post maker.ask alloc c g r
        → Gives r (answer_of g.now.firsts.items g.now.numbers.items (plain_column c.now) K.told_name K.told_answers)) };

    fn takes(&self, _dtype: &DataType) -> bool {
        true
    }

    fn wants_one_row(&self) -> bool {
        false
    }

    fn made(&self, alloc: Global, column: &Series, groups: &Groups) -> PolarsResult<Series> {
        (self.ask)(alloc, column, groups)
    }
}
