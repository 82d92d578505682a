//! The columns of a side that stand in an answer, and those of some names.
ghost use Rattle.std.specs.Prelude.{◌≡◌, ◌≤◌, All, IfOk, length, map};
ghost use Rattle.tb_chunk.specs.Lent.{lent_columns};
ghost use Rattle.tb_chunk.specs.Rows.{IsRowOf};
ghost use Rattle.tb_frame.specs.Frame.{without_names};
ghost use Rattle.tb_frame.specs.Promise.Table.{height, table_of};
ghost use Rattle.tb_gather.specs.Gathered.{gathered_rows};
ghost use Rattle.tb_gather.specs.Ids.{AreAllRowsInOrder};
ghost use Rattle.tb_join.specs.AnswerColumns.{with_names};

use std::alloc::Global;
use std::thread::Threads;
use tb_frame::{DataFrame, name_set};
use tb_gather::{RowOf, gather_rows};
use tb_store::Column;
use tb_value::{IsSorted, JoinPair, MAX_ROWS, OutOfMemory, PlSmallStr};

// The columns whose names are not among these, lent.
fn kept_columns<'a>(
    alloc: Global,
    columns: &'a [Column],
    gone: &[PlSmallStr],
) -> Result<Vec<&'a Column>, OutOfMemory>
    ensures { IfOk result (λ v. lent_columns v.items ≡ without_names gone.now columns.now) }
{
    let gone = name_set(alloc, gone)?;
    let mut kept = Vec::with_capacity(alloc, columns.len())?;
    for column in columns {
        if !gone.contains(column.name()) {
            kept.push(column)?;
        }
    }
    Ok(kept)
}

/// The rows of a side that the pairs name, of its columns but for those of the names that go. `sorted` says how the rows run,
/// as in `gather_rows`.
pub fn side_rows<S: RowOf<JoinPair>>(
    rt: &(impl Threads + Sync),
    alloc: Global,
    table: &DataFrame,
    gone: &[PlSmallStr],
    pairs: &[JoinPair],
    sorted: IsSorted,
) -> Result<Vec<Column>, OutOfMemory>
    requires rows { All (IsRowOf (height (table_of table.now))) (map S.number pairs.now) }
    requires in_order { AreAllRowsInOrder sorted (map S.number pairs.now) }
    requires few { length pairs.now ≤ MAX_ROWS }
    ensures { IfOk result (λ v.
        v.items
        ≡ map (gathered_rows (map S.number pairs.now) sorted)
        (without_names gone.now table.now)) }
{
    let kept = kept_columns(alloc, table.get_columns(), gone)?;
    gather_rows::<S>(rt, alloc, &kept, pairs, sorted)
}

/// The columns whose names are among these, and the others.
pub fn parted(
    alloc: Global,
    columns: Vec<Column>,
    names: &[PlSmallStr],
) -> Result<(Vec<Column>, Vec<Column>), OutOfMemory>
    ensures named { IfOk result (λ r. r.0.items ≡ with_names names.now columns.items) }
    ensures others { IfOk result (λ r. r.1.items ≡ without_names names.now columns.items) }
{
    let set = name_set(alloc, names)?;
    let mut named = Vec::with_capacity(alloc, names.len())?;
    let mut others = Vec::with_capacity(alloc, columns.len())?;
    for column in columns {
        if set.contains(column.name()) {
            named.push(column)?;
        } else {
            others.push(column)?;
        }
    }
    Ok((named, others))
}
