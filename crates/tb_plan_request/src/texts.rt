//! The texts of a plan's faults.
ghost use Rattle.std.specs.Prelude.{◌≡◌, IfOk, string_bytes};
ghost use Rattle.serde_json.specs.View.{view};
ghost use Rattle.tb_json.specs.Promise.Text.{named_error, plain_error};
ghost use Rattle.tb_plan_request.specs.Promise.Texts.{at_node, fault_data, text_of_fault};

use serde_json::{Value, json};
use std::alloc::Global;
use tb_json::error_value;
use tb_plan::PlanFault;
use tb_value::{OutOfMemory, PlSmallStr};

fn plain(alloc: Global, error: &str) -> Result<Value, OutOfMemory>
    ensures { IfOk result (λ v. view v ≡ plain_error error.now) }
{
    Ok(json!(in alloc; {"error": error})?)
}

fn named(alloc: Global, error: &str, name: &PlSmallStr) -> Result<Value, OutOfMemory>
    ensures { IfOk result (λ v. view v ≡ named_error error.now name.now) }
{
    Ok(json!(in alloc; {"error": error, "name": name.as_str()})?)
}

// The same with the number of the node.
fn at_node(alloc: Global, node: usize, error: Value) -> Result<Value, OutOfMemory>
    ensures { IfOk result (λ v. view v ≡ at_node node (view error)) }
{
    match error {
        Value::Object(mut members) => {
            let name = String::from_str(alloc, "node")?;
            members.insert(name, Value::from(node))?;
            Ok(Value::Object(members))
        }
        error => Ok(error),
    }
}

fn fault_value(alloc: Global, fault: &PlanFault) -> Result<Value, OutOfMemory>
    ensures { IfOk result (λ v. view v ≡ fault_data fault.now) }
{
    match fault {
        PlanFault::RepeatedTable(name) => named(alloc, "RepeatedTable", name),
        PlanFault::UnknownTable { node, name } => {
            at_node(alloc, *node, named(alloc, "UnknownTable", name)?)
        }
        PlanFault::At { node, error } => at_node(alloc, *node, error_value(alloc, error)?),
        PlanFault::TestType { node } => at_node(alloc, *node, plain(alloc, "TestType")?),
        PlanFault::OutOfMemory => plain(alloc, "OutOfMemory"),
    }
}

/// The text of a fault, with the newline that ends it. Members stand in the order of their names' bytes, the number of the node
/// too.
#[tactic(auto, unfolding(crate::specs::Promise::Texts::text_of_fault))]
pub fn text_of_fault(alloc: Global, fault: &PlanFault) -> Result<String, OutOfMemory>
    ensures { IfOk result (λ s. string_bytes s ≡ text_of_fault fault.now) }
{
    let mut text = fault_value(alloc, fault)?.to_string(alloc)?;
    text.push_str("\n")?;
    Ok(text)
}
