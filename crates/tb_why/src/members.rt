//! The members that objects of a request have.
ghost use Rattle.std.specs.Prelude.{◌≡◌, option_map};
ghost use Rattle.tb_tree.specs.View.{item_view};
ghost use Rattle.tb_request.specs.Promise.Members.{known_view, known_views, names_of};
ghost use Rattle.tb_why.specs.Members.{fault_of, each_known, has_any, unknown_spot, members_spot};
ghost use Rattle.tb_why.specs.Spots.{spot_view, unless, Finds};

use crate::forms::has_form;
use crate::spot::{Expected, Spot, here, under_member};
use crate::tree::{Tree, is_object, member, unknown_in};
use std::alloc::Global;
use tb_request::{Form, Known};
use tb_value::OutOfMemory;

/// What is expected, where it is not so.
pub(crate) fn unless(alloc: Global, holds: bool, expected: Expected) -> Option<Spot>
    ensures { option_map spot_view result ≡ unless holds expected }
{
    if holds {
        None
    } else {
        Some(here(alloc, expected))
    }
}

fn fault_of(
    alloc: Global,
    known: &Known,
    value: Option<Tree<'_>>,
) -> Result<Option<Spot>, OutOfMemory>
    ensures { Finds result (fault_of (known_view known.now) (option_map item_view value.entry)) }
{
    match value {
        Some(value) => {
            let holds = has_form(alloc, known.form(), value)?;
            Ok(unless(alloc, holds, Expected::Form(known.form())))
        }
        None => Ok(unless(alloc, !known.is_needed(), Expected::Wanting(known.form()))),
    }
}

fn each_known(alloc: Global, known: &[Known], object: Tree<'_>) -> Result<Option<Spot>, OutOfMemory>
    ensures { Finds result (each_known (known_views known.now) (item_view object.entry)) }
{
    for one in known {
        if let Some(spot) = fault_of(alloc, one, member(object, one.name()))? {
            return under_member(alloc, one.name(), Some(spot));
        }
    }
    Ok(None)
}

fn unknown_spot(
    alloc: Global,
    known: &[Known],
    object: Tree<'_>,
) -> Result<Option<Spot>, OutOfMemory>
    ensures { Finds result
        (unknown_spot (names_of (known_views known.now)) (item_view object.entry)) }
{
    match unknown_in(object, known) {
        Some(name) => under_member(alloc, name, Some(here(alloc, Expected::NoMember))),
        None => Ok(None),
    }
}

/// Whether the object has any of these members.
pub(crate) fn has_any(object: Tree<'_>, known: &[Known]) -> bool
    ensures { result ≡ has_any (known_views known.now) (item_view object.entry) }
{
    for one in known {
        if member(object, one.name()).is_some() {
            return true;
        }
    }
    false
}

/// The first of its members that the object has not, or should not have, or that is of another form.
pub(crate) fn members_spot(
    alloc: Global,
    known: &[Known],
    object: Tree<'_>,
) -> Result<Option<Spot>, OutOfMemory>
    ensures { Finds result (members_spot (known_views known.now) (item_view object.entry)) }
{
    if !is_object(object) {
        return Ok(Some(here(alloc, Expected::Form(Form::Object))));
    }
    match unknown_spot(alloc, known, object)? {
        Some(spot) => Ok(Some(spot)),
        None => each_known(alloc, known, object),
    }
}
