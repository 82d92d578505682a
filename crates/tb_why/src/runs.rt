//! Runs that are none of a column of the type.
ghost use Rattle.std.specs.Prelude.{◌≡◌, codes, option_map};
ghost use Rattle.tb_tree.specs.View.{item_view};
ghost use Rattle.tb_value.specs.SeeKind.{kind_of};
ghost use Rattle.tb_request.specs.declared.shape.Format.TheVariants.{Runs};
ghost use Rattle.tb_why.specs.Columns.{counted_spot, run_spot, runs_spot, times_expected, times_spot};
ghost use Rattle.tb_why.specs.Spots.{inside, spot_view, Finds};

use crate::members::unless;
use crate::spot::{Expected, Spot, here, under_index, under_member};
use crate::tree::{Tree, dtype, items, member, parts, whole};
use std::alloc::Global;
use tb_request::times_of;
use tb_value::{DataType, OutOfMemory};

fn times_expected(dtype: &DataType) -> Expected
    ensures { result ≡ times_expected (kind_of dtype.now) }
{
    match dtype {
        DataType::List(_) | DataType::Struct(_) => Expected::Once,
        _ => Expected::Times,
    }
}

fn times_spot(alloc: Global, dtype: &DataType, times: Tree<'_>) -> Option<Spot>
    ensures { option_map spot_view result ≡ times_spot (kind_of dtype.now) (item_view times.entry) }
{
    let holds = match whole(times) {
        Some(times) => times_of(dtype, times).is_some(),
        None => false,
    };
    unless(alloc, holds, times_expected(dtype))
}

fn run_spot(alloc: Global, dtype: &DataType, run: Tree<'_>) -> Result<Option<Spot>, OutOfMemory>
    ensures { Finds result (run_spot (kind_of dtype.now) (item_view run.entry)) }
{
    match parts(run) {
        Some((_, times)) => under_index(1, times_spot(alloc, dtype, times)),
        None => Ok(Some(here(alloc, Expected::Run))),
    }
}

fn runs_spot(alloc: Global, dtype: &DataType, runs: Tree<'_>) -> Result<Option<Spot>, OutOfMemory>
    ensures { Finds result (runs_spot (kind_of dtype.now) (item_view runs.entry)) }
{
    let runs = items(runs);
    for i in 0..runs.len() {
        let run = runs.at(i);
        if let Some(spot) = run_spot(alloc, dtype, run)? {
            return under_index(i, Some(spot));
        }
    }
    Ok(None)
}

fn counted_spot_of(
    alloc: Global,
    dtype: &DataType,
    column: Tree<'_>,
) -> Result<Option<Spot>, OutOfMemory>
    ensures { Finds result
        (inside (codes "runs") (runs_spot (kind_of dtype.now)) (item_view column.entry)) }
{
    match member(column, "runs") {
        Some(runs) => under_member(alloc, "runs", runs_spot(alloc, dtype, runs)?),
        None => Ok(None),
    }
}

/// The first run of a column that is none of its type.
pub(crate) fn counted_spot(alloc: Global, column: Tree<'_>) -> Result<Option<Spot>, OutOfMemory>
    ensures { Finds result (counted_spot Runs (item_view column.entry)) }
{
    let Some(kind) = member(column, "type") else {
        return Ok(None);
    };
    match dtype(alloc, kind)? {
        Some(dtype) => counted_spot_of(alloc, &dtype, column),
        None => Ok(None),
    }
}
