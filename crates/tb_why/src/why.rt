//! Why bytes are no request, and where.
ghost use Rattle.std.specs.Prelude.{◌≡◌, option_map, IfOk, IfSome};
ghost use Rattle.tb_tree.specs.View.{item_view};
ghost use Rattle.tb_why.specs.Lent.{IsTold};
ghost use Rattle.tb_why.specs.Requests.{reason_of, spot_at, IsPlaced, IsPlacedInText};
ghost use Rattle.tb_why.specs.Spots.{spot_view};

use crate::requests::request_spot;
use crate::spot::{Command, Expected, Fault, Place, Spot, here};
use crate::tree::{Tree, tree_of};
use std::alloc::Global;
use tb_delta_request::delta_request_of;
use tb_group_request::group_request_of;
use tb_plan_request::plan_request_of;
use tb_request::{
    Reason, RequestFault, dummies_request_of, join_request_of, pivot_request_of, unpivot_request_of,
};
use tb_tree::Item;
use tb_value::OutOfMemory;

fn spot_at(
    alloc: Global,
    command: Command,
    reason: Reason,
    request: Tree<'_>,
) -> Result<Spot, OutOfMemory>
    ensures { IfOk result (λ s. spot_view s ≡ spot_at command reason (item_view request.entry)) }
{
    match request_spot(alloc, command, reason, request)? {
        Some(spot) => Ok(spot),
        None => Ok(here(alloc, Expected::Request)),
    }
}

// The reason why no request was read.
fn told<Q: Drop>(read: Result<Q, RequestFault>) -> Result<Option<Reason>, OutOfMemory>
    ensures { IfOk result (λ o. IsTold read o) }
{
    match read {
        Ok(_) => Ok(None),
        Err(RequestFault::NoRequest(reason)) => Ok(Some(reason)),
        Err(RequestFault::OutOfMemory) => Err(OutOfMemory),
    }
}

fn reason_of(alloc: Global, command: Command, bytes: Vec<u8>) -> Result<Option<Reason>, OutOfMemory>
    ensures { IfOk result (λ o. o ≡ reason_of command bytes.items) }
{
    match command {
        Command::Join => told(join_request_of(alloc, bytes)),
        Command::Unpivot => told(unpivot_request_of(alloc, bytes)),
        Command::Dummies => told(dummies_request_of(alloc, bytes)),
        Command::Pivot => told(pivot_request_of(alloc, bytes)),
        Command::Plan => told(plan_request_of(alloc, bytes)),
        Command::Delta => told(delta_request_of(alloc, bytes)),
        Command::Group => told(group_request_of(alloc, bytes)),
    }
}

fn fault_of(
    alloc: Global,
    command: Command,
    reason: Reason,
    bytes: &[u8],
) -> Result<Fault, OutOfMemory>
    ensures reason { IfOk result (λ f. f.reason ≡ reason) }
    ensures place { IfOk result (λ f. IsPlaced command bytes.now f) }
    ensures text { IfOk result (λ f. IsPlacedInText bytes.now f) }
{
    match tree_of(alloc, bytes)? {
        Ok(request) => {
            let Spot { path, expected } = spot_at(alloc, command, reason, Item::Lent(&request))?;
            Ok(Fault {
                reason,
                place: Place::Path(path),
                expected,
            })
        }
        Err(place) => Ok(Fault {
            reason,
            place: Place::Text {
                line: place.line,
                column: place.column,
            },
            expected: Expected::Json,
        }),
    }
}

/// Why the bytes are no request of the command, and where; None exactly where they are one.
///
/// The reason is the one that the reader of the command gives. The place of `Json` is the line and the
/// column at which the bytes stop being the text of a JSON value. Else it is the first value of the
/// request that is at fault for the reason: of `Shape` a member that is wanting, unknown or of another
/// form, those of the whole before those inside them, or a run or its count; of `Value` a value that is none
/// of its column's type, or a column whose chunks have too many; of `Rows` the first run at which the counts of
/// all runs up to it add up to more than `MAX_RUN_VALUES`; of `Exec` a number; of `Heights` a column that has
/// not as many values as the first one; of `Name` the name of a column that one before it has; and of `Flag` a
/// column that is not in the order that is claimed. The left table comes before the right one.
///
/// # Errors
///
/// `OutOfMemory` alone, which may come at any time.
pub fn why_not(alloc: Global, command: Command, bytes: &[u8]) -> Result<Option<Fault>, OutOfMemory>
    ensures reason { IfOk result (λ o. option_map (λ f. f.reason) o ≡ reason_of command bytes.now) }
    ensures place { IfOk result (λ o. IfSome o (λ f. IsPlaced command bytes.now f)) }
    ensures text { IfOk result (λ o. IfSome o (λ f. IsPlacedInText bytes.now f)) }
{
    match reason_of(alloc, command, bytes.to_vec(alloc)?)? {
        Some(reason) => Ok(Some(fault_of(alloc, command, reason, bytes)?)),
        None => Ok(None),
    }
}
