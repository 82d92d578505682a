//! The arguments of a join that are at fault.
ghost use Rattle.std.specs.Prelude.{◌≡◌, option_map};
ghost use Rattle.tb_tree.specs.View.{item_view};
ghost use Rattle.tb_why.specs.Arguments.{args_spot, flag_spot, flags_spot};
ghost use Rattle.tb_why.specs.Spots.{spot_view, Finds};

use crate::members::{members_spot, unless};
use crate::spot::{Expected, Spot, under_index, under_member};
use crate::tree::{Tree, is_truth, items, member};
use std::alloc::Global;
use tb_request::{Form, args_members};
use tb_value::OutOfMemory;

fn flag_spot(alloc: Global, flag: Tree<'_>) -> Option<Spot>
    ensures { option_map spot_view result ≡ flag_spot (item_view flag.entry) }
{
    unless(alloc, is_truth(flag), Expected::Form(Form::Truth))
}

// The first of a list of flags that is none.
fn flags_spot(alloc: Global, flags: Tree<'_>) -> Result<Option<Spot>, OutOfMemory>
    ensures { Finds result (flags_spot (item_view flags.entry)) }
{
    let flags = items(flags);
    for i in 0..flags.len() {
        let flag = flags.at(i);
        if let Some(spot) = flag_spot(alloc, flag) {
            return under_index(i, Some(spot));
        }
    }
    Ok(None)
}

/// The first argument, or part of one, that is at fault.
pub(crate) fn args_spot(alloc: Global, args: Tree<'_>) -> Result<Option<Spot>, OutOfMemory>
    ensures { Finds result (args_spot (item_view args.entry)) }
{
    if let Some(spot) = members_spot(alloc, args_members(), args)? {
        return Ok(Some(spot));
    }
    match member(args, "join_nulls") {
        Some(flags) => under_member(alloc, "join_nulls", flags_spot(alloc, flags)?),
        None => Ok(None),
    }
}
