//! The texts of answers and refusals.
ghost use Rattle.std.specs.Prelude.{◌≡◌, ◌++◌, false, IfOk, OnOk, Some, map, string_bytes};
ghost use Rattle.serde_json.specs.Data.{number, unsigned};
ghost use Rattle.serde_json.specs.View.{view};
ghost use Rattle.serde_json.specs.Written.{compact_text};
ghost use Rattle.tb_frame.specs.Promise.Table.{table_of};
ghost use Rattle.tb_json.specs.Written.{with_items};
ghost use Rattle.tb_delta.specs.Running.{lists_of};
ghost use Rattle.tb_delta_request.specs.Lent.{refusal_view};
ghost use Rattle.tb_delta_request.specs.Promise.Answers.{Refusal};
ghost use Rattle.tb_delta_request.specs.Promise.Texts.{fault_word, id_data, ids_data, kept_text, lists_data, step_data, step_text, text_of_refusal};

use crate::keeping::KeptFault;
use serde_json::{Value, json};
use std::alloc::Global;
use tb_delta::{DeltaFault, StepFault};
use tb_frame::DataFrame;
use tb_json::{open_table, push_comma, text_of_refusal};
use tb_text::Text;
use tb_value::OutOfMemory;

fn push_id(text: &mut String, id: u32) -> Result<(), OutOfMemory>
    ensures { OnOk result
        (string_bytes text.new ≡ string_bytes text.old ++ compact_text (id_data id)) }
{
    write!(text, "{}", id)?;
    Ok(())
}

// Ids, as items of an array.
fn push_ids(text: &mut String, ids: &[u32]) -> Result<(), OutOfMemory>
    ensures { OnOk result (string_bytes text.new
        ≡ (with_items (string_bytes text.old, false) (map id_data ids.now)).0) }
{
    let mut later = false;
    for id in ids {
        push_comma(text, later)?;
        push_id(text, *id)?;
        later = true;
    }
    Ok(())
}

// Ids, as an array.
fn push_list(text: &mut String, ids: &[u32]) -> Result<(), OutOfMemory>
    ensures { OnOk result
        (string_bytes text.new ≡ string_bytes text.old ++ compact_text (ids_data ids.now)) }
{
    text.push_str("[")?;
    push_ids(text, ids)?;
    text.push_str("]")?;
    Ok(())
}

// Lists of ids, as items of an array.
fn push_lists(text: &mut String, lists: &[Vec<u32>]) -> Result<(), OutOfMemory>
    ensures { OnOk result (string_bytes text.new
        ≡ (with_items (string_bytes text.old, false) (map ids_data (lists_of lists.now))).0) }
{
    let mut later = false;
    for ids in lists {
        push_comma(text, later)?;
        push_list(text, ids)?;
        later = true;
    }
    Ok(())
}

// Lists of ids, as an array.
fn push_partners(text: &mut String, lists: &[Vec<u32>]) -> Result<(), OutOfMemory>
    ensures { OnOk result
        (string_bytes text.new
        ≡ string_bytes text.old ++ compact_text (lists_data (lists_of lists.now))) }
{
    text.push_str("[")?;
    push_lists(text, lists)?;
    text.push_str("]")?;
    Ok(())
}

/// The text of the joined table, which is let go, with the member `partners`, the ids that each step told, behind the others, and the newline
/// that ends it.
pub fn text_of_kept(
    alloc: Global,
    table: DataFrame,
    partners: &[Vec<u32>],
) -> Result<Text, OutOfMemory>
    ensures { IfOk result (λ t. t ≡ kept_text (table_of table) (lists_of partners.now)) }
{
    let mut text = open_table(alloc, table)?;
    let mut told = String::from_str(alloc, ",\"partners\":")?;
    push_partners(&mut told, partners)?;
    told.push_str("}\n")?;
    text.push(told.into_bytes())?;
    Ok(text)
}

fn fault_word(fault: DeltaFault) -> &'static str
    ensures { result.now ≡ fault_word fault }
{
    match fault {
        DeltaFault::Schema => "Schema",
        DeltaFault::Full => "Full",
        DeltaFault::NoRow => "NoRow",
        DeltaFault::OutOfMemory => "OutOfMemory",
    }
}

fn step_value(alloc: Global, fault: StepFault) -> Result<Value, OutOfMemory>
    ensures { IfOk result (λ v. view v ≡ step_data (fault.step, fault.fault)) }
{
    Ok(json!(in alloc; {"error": fault_word(fault.fault), "step": fault.step})?)
}

// The text of why a step is refused, with its place.
fn text_of_step(alloc: Global, fault: StepFault) -> Result<String, OutOfMemory>
    ensures { IfOk result (λ s. string_bytes s ≡ step_text (fault.step, fault.fault)) }
{
    let mut text = step_value(alloc, fault)?.to_string(alloc)?;
    text.push_str("\n")?;
    Ok(text)
}

/// The text of why a request is not done, and the newline that ends it.
///
/// # Errors
///
/// `OutOfMemory`, and always where that is the fault.
pub fn text_of_fault(alloc: Global, fault: &KeptFault) -> Result<String, OutOfMemory>
    ensures { IfOk result (λ s.
        (r : Refusal) × (refusal_view fault.now ≡ Some r) × (string_bytes s ≡ text_of_refusal r)) }
{
    match fault {
        KeptFault::OutOfMemory => Err(OutOfMemory),
        KeptFault::Refused(error) => text_of_refusal(alloc, error),
        KeptFault::Stopped(fault) => text_of_step(alloc, *fault),
    }
}
