//! The text of a joined table, with how the join went.
ghost use Rattle.std.specs.Prelude.{◌≡◌, false, IfOk};
ghost use Rattle.serde_json.specs.View.{view};
ghost use Rattle.serde_json.specs.Written.{has_float};
ghost use Rattle.tb_frame.specs.Promise.Table.{table_of};
ghost use Rattle.tb_json.specs.Promise.Text.{traced_text_of};
ghost use Rattle.tb_sorted.specs.Promise.Listed.{sizes_of};
ghost use Rattle.tb_pairs.specs.Promise.Trace.{hash, merge, trace_told};
ghost use Rattle.tb_run.specs.Promise.Traces.{trace_data};

use serde_json::{Value, json};
use std::alloc::Global;
use tb_build::Built;
use tb_frame::DataFrame;
use tb_group_request::counts_value;
use tb_join::JoinTrace;
use tb_json::traced_text_of;
use tb_merge::Merged;
use tb_text::Text;
use tb_value::OutOfMemory;

fn built_value(alloc: Global, built: &Built) -> Result<Value, OutOfMemory>
    ensures { IfOk result (λ v. view v ≡ trace_data (hash built.now)) }
{
    let sizes = counts_value(alloc, built.sizes())?;
    Ok(json!(in alloc; {
        "left_built": built.left_built(),
        "parts": built.parts(),
        "path": "hash",
        "sizes": sizes
    })?)
}

fn merged_value(alloc: Global, merged: &Merged) -> Result<Value, OutOfMemory>
    ensures { IfOk result (λ v. view v ≡ trace_data (merge (sizes_of merged.now))) }
{
    Ok(json!(in alloc; {
        "left_len": merged.left_len(),
        "pairs": merged.pairs(),
        "path": "merge",
        "right_len": merged.right_len()
    })?)
}

fn trace_value(alloc: Global, trace: &JoinTrace) -> Result<Value, OutOfMemory>
    ensures { IfOk result (λ v. view v ≡ trace_data (trace_told trace.now)) }
{
    match trace {
        JoinTrace::Hash(built) => built_value(alloc, built),
        JoinTrace::Merge(merged) => merged_value(alloc, merged),
        JoinTrace::Plain => Ok(Value::Null),
    }
}

/// The text of a joined table with the trace of the join, and the newline that ends it.
pub(crate) fn text_with_trace(
    alloc: Global,
    table: DataFrame,
    trace: &JoinTrace,
) -> Result<Text, OutOfMemory>
    ensures { IfOk result (λ t.
        t ≡ traced_text_of (table_of table) (trace_data (trace_told trace.now))) }
{
    let trace = trace_value(alloc, trace)?;
    traced_text_of(alloc, table, &trace)
}
