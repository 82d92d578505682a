//! Faults of requests, their places, and what is expected there.
ghost use Rattle.std.specs.Prelude.{◌≡◌, Some, option_map, IfOk};
ghost use Rattle.tb_why.specs.declared.spot.Step.TheVariants.{Member, Index};
ghost use Rattle.tb_why.specs.Commands.{command_named};
ghost use Rattle.tb_why.specs.Spots.{spot_here, spot_view, under, Finds};

use std::alloc::Global;
use tb_request::{Form, Reason};
use tb_value::{IsSorted, OutOfMemory, PlSmallStr};

/// The commands that have requests.
#[derive(Clone, Copy)]
pub enum Command {
    Join,
    Unpivot,
    Dummies,
    Pivot,
    Plan,
    Delta,
    Group,
}

/// The command of a name.
pub fn command_named(name: &str) -> Option<Command>
    ensures { result ≡ command_named name.now }
{
    match name {
        "join" => Some(Command::Join),
        "unpivot" => Some(Command::Unpivot),
        "dummies" => Some(Command::Dummies),
        "pivot" => Some(Command::Pivot),
        "plan" => Some(Command::Plan),
        "delta" => Some(Command::Delta),
        "group" => Some(Command::Group),
        _ => None,
    }
}

/// What is expected at a place.
#[derive(Clone, Copy)]
pub enum Expected {
    /// The text of a JSON value.
    Json,
    /// A request.
    Request,
    /// A value of this form.
    Form(Form),
    /// A member of this form, where there is none.
    Wanting(Form),
    /// No member of this name.
    NoMember,
    Null,
    Truth,
    /// A whole number from the first to the second.
    Whole(i128, i128),
    /// A text of the digits of a whole number of 128 bits.
    Digits,
    Text,
    /// A text of lower-case hexadecimal digits, two for each byte.
    Hexadecimal,
    /// A list of values of the type.
    List,
    /// A list of one value of each field.
    Row,
    /// A list of two, a value and its count.
    Run,
    /// A count from 1 to 2^64 - 1.
    Times,
    /// The count 1.
    Once,
    /// A count by which the runs of a request have at most `MAX_RUN_VALUES` values up to it.
    FewRunValues,
    /// A column of at most `MAX_ROWS` values.
    FewValues,
    /// A column of as many values as the first one has, which are so many.
    Height(u128),
    /// A name that no column before it has.
    OtherName,
    /// A column whose values are in this order.
    Ordered(IsSorted),
}

/// A step from a value to one inside it.
#[derive(Drop)]
pub enum Step {
    Member(PlSmallStr),
    Index(usize),
}

/// A place in a request.
#[derive(Drop)]
pub enum Place {
    /// In the text: the line, counted from 1, and the column.
    Text { line: usize, column: usize },
    /// In the JSON value: the steps to it, the innermost first.
    Path(Vec<Step>),
}

/// Why bytes are no request, where, and what is expected there.
#[derive(Drop)]
pub struct Fault {
    pub reason: Reason,
    pub place: Place,
    pub expected: Expected,
}

/// The steps to a place, the innermost first, and what is expected there.
#[derive(Drop)]
pub(crate) struct Spot {
    pub path: Vec<Step>,
    pub expected: Expected,
}

/// The value itself.
pub(crate) fn here(alloc: Global, expected: Expected) -> Spot
    ensures { Some (spot_view result) ≡ spot_here expected }
{
    Spot {
        path: Vec::new(alloc),
        expected,
    }
}

fn behind(spot: Spot, step: Step) -> Result<Option<Spot>, OutOfMemory>
    ensures { Finds result (under step (Some (spot_view spot))) }
{
    let Spot { mut path, expected } = spot;
    path.push(step)?;
    Ok(Some(Spot { path, expected }))
}

/// What is found in the member of this name.
pub(crate) fn under_member(
    alloc: Global,
    name: &str,
    found: Option<Spot>,
) -> Result<Option<Spot>, OutOfMemory>
    ensures { Finds result (under (Member name.now) (option_map spot_view found)) }
{
    match found {
        Some(spot) => behind(spot, Step::Member(PlSmallStr::from_str(alloc, name)?)),
        None => Ok(None),
    }
}

/// What is found in the value at this place of a list.
pub(crate) fn under_index(index: usize, found: Option<Spot>) -> Result<Option<Spot>, OutOfMemory>
    ensures { Finds result (under (Index index) (option_map spot_view found)) }
{
    match found {
        Some(spot) => behind(spot, Step::Index(index)),
        None => Ok(None),
    }
}
