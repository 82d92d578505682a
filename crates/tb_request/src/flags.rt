//! The flags that are claimed of columns.
ghost use Rattle.std.specs.Prelude.{◌≡◌, map, IfOk, IsTrue};
ghost use Rattle.tb_chunk.specs.Promise.Col.{values};
ghost use Rattle.tb_frame.specs.Promise.Table.{plain_column, table_of};
ghost use Rattle.tb_request.specs.Columns.{relaid_column};
ghost use Rattle.tb_request.specs.Promise.Flags.{flag_holds, flags_hold};
ghost use Rattle.tb_request.specs.Lent.{claimed_view};

use crate::values::ClaimedColumn;
use std::alloc::Global;
use tb_store::Column;
use tb_value::{IsSorted, OutOfMemory};

/// Columns, and whether each has the flag that was claimed of it.
#[derive(Drop)]
pub struct FlaggedColumns {
    pub columns: Vec<Column>,
    pub hold: bool,
}

/// Whether the values of a column are in the order.
pub fn flag_holds(column: &Column, flag: IsSorted) -> bool
    ensures { result ≡ flag_holds flag column.now.kind (values column.now) }
{
    match flag {
        IsSorted::Ascending => column.is_ascending(),
        IsSorted::Descending => column.is_descending(),
        IsSorted::Not => true,
    }
}

// The column with the flag that is claimed of it, where this is true, and whether it is.
fn settled(claimed: ClaimedColumn) -> (Column, bool)
    ensures holds { result.1 ≡ flag_holds claimed.flag claimed.column.kind (values claimed.column) }
    ensures flagged { IsTrue result.1 → relaid_column result.0 ≡ claimed_view claimed }
    ensures plain { plain_column result.0 ≡ plain_column (claimed_view claimed) }
{
    let ClaimedColumn { mut column, flag } = claimed;
    if flag_holds(&column, flag) {
        column.set_sorted_flag(flag);
        return (column, true);
    }
    (column, false)
}

/// The columns with the flags that are claimed of them, as far as these are true.
pub fn flagged(alloc: Global, claimed: Vec<ClaimedColumn>) -> Result<FlaggedColumns, OutOfMemory>
    ensures hold { IfOk result (λ f. f.hold ≡ flags_hold (map claimed_view claimed.items)) }
    ensures flagged { IfOk result (λ f. IsTrue f.hold
        → map relaid_column f.columns.items ≡ map claimed_view claimed.items) }
    ensures table { IfOk result (λ f. table_of f.columns.items
        ≡ table_of (map claimed_view claimed.items)) }
{
    let mut columns = Vec::with_capacity(alloc, claimed.len())?;
    let mut hold = true;
    for item in claimed {
        let (column, holds) = settled(item);
        columns.push(column)?;
        hold &= holds;
    }
    Ok(FlaggedColumns { columns, hold })
}
