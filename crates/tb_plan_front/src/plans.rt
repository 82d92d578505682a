//! Plans, read from texts.
ghost use Rattle.std.specs.Prelude.{◌≡◌, ◌∷◌, [], codes, option_and_then, option_map, IfOk};
ghost use Rattle.serde_json.specs.Find.{get};
ghost use Rattle.tb_tree.specs.View.{view};
ghost use Rattle.tb_node.specs.Seen.{tree_of};
ghost use Rattle.tb_request.specs.Promise.Members.{known_views, names_of};
ghost use Rattle.tb_plan_request.specs.Promise.Written.{tree_in};
ghost use Rattle.tb_plan_front.specs.Plans.{plan_asked};
ghost use Rattle.tb_front.specs.Promise.Due.{Gives};
ghost use Rattle.tb_plan_front.specs.Promise.Plans.{plan_in, plan_of};

use std::alloc::Global;
use tb_calls::PivotCall;
use tb_front::{FrontFault, PlanPart};
use tb_node::Node;
use tb_plan_request::{pivot_of, tree_of};
use tb_request::{Form, Known, has_only, json_value, truth_at};
use tb_tree::Value;
use tb_value::OutOfMemory;

/// What is asked of tables that have names.
#[derive(Drop)]
pub struct PlanCall {
    /// Joins and filters of the tables.
    pub root: Node,
    /// What is asked of a pivot of what they make, if one is.
    pub pivot: Option<PivotCall>,
    /// Whether filters are put before joins, as far as they may.
    pub push: bool,
}

// The members of a plan.
fn plan_members() -> &'static [Known]
    ensures { names_of (known_views result.now)
        ≡ codes "pivot" ∷ codes "push" ∷ codes "root" ∷ [] }
{
    &[
        Known::Optional("pivot", Form::Object),
        Known::Optional("push", Form::Truth),
        Known::Needed("root", Form::Object),
    ]
}

// The tree of the member `root`.
fn root_in(alloc: Global, value: &Value) -> Result<Option<Node>, OutOfMemory>
    ensures { IfOk result (λ o.
        option_map tree_of o
        ≡ option_and_then tree_in (get (codes "root") (view value.now))) }
{
    match value.get("root") {
        Some(member) => tree_of(alloc, member),
        None => Ok(None),
    }
}

#[tactic(auto, unfolding(crate::specs::Promise::Plans::plan_in))]
fn plan_in(alloc: Global, value: &Value) -> Result<PlanCall, FrontFault>
    ensures { Gives plan_asked result (plan_in (view value.now)) }
{
    if !has_only(value, plan_members()) {
        return Err(FrontFault::NoPlan(PlanPart::Members));
    }
    let Some(root) = root_in(alloc, value)? else {
        return Err(FrontFault::NoPlan(PlanPart::Root));
    };
    let Some(pivot) = pivot_of(alloc, value)? else {
        return Err(FrontFault::NoPlan(PlanPart::Pivot));
    };
    let Some(push) = truth_at(value, "push") else {
        return Err(FrontFault::NoPlan(PlanPart::Push));
    };
    Ok(PlanCall { root, pivot, push })
}

/// The plan that a text in JSON is: an object with the member `root`, a tree, and perhaps `pivot` and `push`, each as in a request
/// of a plan.
///
/// # Errors
///
/// `NoPlan` of the first part that is none, in the order of `PlanPart`, or `OutOfMemory`.
pub fn plan_of(alloc: Global, text: &[u8]) -> Result<PlanCall, FrontFault>
    ensures { Gives plan_asked result (plan_of text.now) }
{
    match json_value(alloc, text)? {
        Some(value) => plan_in(alloc, &value),
        None => Err(FrontFault::NoPlan(PlanPart::Json)),
    }
}
