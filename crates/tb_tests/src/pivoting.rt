//! A table made wide by an object of the caller's, by an aggregate, and by neither.
ghost use Rattle.std.specs.Prelude.{◌≡◌, length, MatchResult};
ghost use Rattle.tb_chunk.specs.Promise.Col.{values};
ghost use Rattle.tb_frame.specs.Promise.Table.{plain_column};
ghost use Rattle.tb_agg.specs.Grouped.{AreGroupsOf};
ghost use Rattle.tb_tests.specs.Sums.{column_sums};

use crate::texts::{check_text, given, pivot_asked};
use std::alloc::Global;
use std::process::Abort;
use std::test::Fail;
use tb_agg::{Aggregate, aggregated};
use tb_frame::DataFrame;
use tb_pivot::{ExprFault, PhysicalAggExpr, PivotAgg, pivot};
use tb_request::PivotRequest;
use tb_rows::Groups;
use tb_store::{PlSmallStr, Series};
use tb_value::{ComputeCause, PolarsError, PolarsResult};

// The sums of a column by groups. Where `aggregated` refuses, this says that memory is wanting.
#[tactic(auto, using(crate::proofs::Sums::are_sums))]
fn sums_by(alloc: Global, column: &Series, groups: &Groups) -> Result<Series, ExprFault>
    requires { AreGroupsOf (length (values column.now)) groups.now }
    ensures { MatchResult result
        (λ s. plain_column s
        ≡ column_sums (plain_column column.now) groups.now.firsts.items groups.now.numbers.items)
        (λ e. e ≡ ExprFault.OutOfMemory) }
{
    match aggregated(alloc, column, groups, Aggregate::Sum) {
        Ok(sums) => Ok(sums),
        Err(_) => Err(ExprFault::OutOfMemory),
    }
}

// Sums the first column of the table that it is handed, by the groups that it is handed.
#[derive(Drop)]
struct Sums {
    name: PlSmallStr,
}

impl PhysicalAggExpr for Sums {
    ghost use Rattle.std.specs.Prelude.{Ok};
    ghost use Rattle.tb_tests.specs.Sums.{sums};

    ghost named = { λ s. Ok s.name };

    ghost answers = { λ _ table firsts numbers. sums table firsts numbers };

    fn root_name(&self) -> Result<&PlSmallStr, ExprFault> {
        Ok(&self.name)
    }

    fn evaluate(
        &self,
        alloc: Global,
        df: &DataFrame,
        groups: &Groups,
    ) -> Result<Series, ExprFault> {
        match df.get_columns().first() {
            Some(column) => sums_by(alloc, column.as_materialized_series(), groups),
            None => Err(ExprFault::Refused(0)),
        }
    }
}

fn boxed(alloc: Global) -> Result<PivotAgg, Fail> {
    let sums = Sums {
        name: PlSmallStr::from_str(alloc, "x")?,
    };
    Ok(PivotAgg::Expr(Box::new(alloc, sums)?))
}

// Two rows of one cell, one of another beside it and one below.
const FOUR_ROWS: &str =
    r#"{"table":{"columns":[{"name":"i","type":"i64","chunks":[[1,1,2,1]]},{"name":"o","type":"i64","chunks":[[5,6,5,5]]},{"name":"v","type":"i64","chunks":[[7,8,9,10]]}]},"on":["o"],"index":["i"]}"#;

// The table made wide by an object, an aggregate, or neither.
fn wide(alloc: Global, request: &PivotRequest, agg: Option<&PivotAgg>) -> PolarsResult<DataFrame> {
    let (table, on, index) = (&request.table, &request.on, given(&request.index));
    pivot(alloc, table, on, index, None, false, agg, None)
}

fn check_wide(
    rt: &impl Abort,
    alloc: Global,
    request: &PivotRequest,
    agg: &PivotAgg,
) -> Result<(), Fail> {
    let table = wide(alloc, request, Some(agg))?;
    let line =
        r#"{"columns":[{"name":"i","type":"i64","values":[1,2]},{"name":"5","type":"i64","values":[17,9]},{"name":"6","type":"i64","values":[8,null]}],"height":2}"#;
    check_text(rt, alloc, table, line)
}

fn check_sums(rt: &impl Abort, alloc: Global, request: &PivotRequest) -> Result<(), Fail> {
    let agg = boxed(alloc)?;
    check_wide(rt, alloc, request, &agg)
}

#[test]
fn an_object_sums_the_groups_that_it_is_handed(rt: HostRuntime) -> Result<(), Fail> {
    let request = pivot_asked(rt.alloc(), FOUR_ROWS)?;
    check_sums(&rt, rt.alloc(), &request)
}

#[test]
fn an_aggregate_sums_the_groups(rt: HostRuntime) -> Result<(), Fail> {
    let request = pivot_asked(rt.alloc(), FOUR_ROWS)?;
    check_wide(&rt, rt.alloc(), &request, &PivotAgg::Sum)
}

// Whether the table is refused for its cell of two rows, where nothing makes one value of them.
fn has_many_rows(alloc: Global, request: &PivotRequest) -> bool {
    matches!(
        wide(alloc, request, None),
        Err(PolarsError::ComputeError(ComputeCause::ManyInGroup))
    )
}

#[test]
fn a_cell_of_two_rows_has_no_value(rt: HostRuntime) -> Result<(), Fail> {
    let request = pivot_asked(rt.alloc(), FOUR_ROWS)?;
    assert!(rt; has_many_rows(rt.alloc(), &request));
    Ok(())
}
