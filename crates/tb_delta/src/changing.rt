//! One step of a list, after which ids may still be to be taken out of the groups.
ghost use Rattle.std.specs.Prelude.{◌≡◌, [], IfOk, List, if◌then◌else◌, option_map, unwrap_or, ℕ};
ghost use Rattle.tb_value.specs.Promise.Datum.{Datum};
ghost use Rattle.tb_value.specs.Promise.Same.{agrees};
ghost use Rattle.tb_value.specs.See.{datum, data_of};
ghost use Rattle.tb_value.specs.declared.error.Side.{Side};
ghost use Rattle.tb_delta.specs.Changing.{IsChanging, of_both};
ghost use Rattle.tb_delta.specs.Groups.{AreAscending};
ghost use Rattle.tb_delta.specs.Inside.{IsPlaced, key_of, side_state};
ghost use Rattle.tb_delta.specs.Late.{ids_left, IsTakenOut, KeepsIds};
ghost use Rattle.tb_delta.specs.Promise.State.{other, row_of};
ghost use Rattle.tb_delta.specs.Promise.Steps.{insert, remove};
ghost use Rattle.tb_delta.specs.Running.{IsDone};
ghost use Rattle.tb_delta.specs.declared.key.RowKey.{RowKey};

use crate::fault::DeltaFault;
use crate::groups::other;
use crate::key::RowKey;
use crate::late::LateGroups;
use crate::side_rows::SideRows;
use crate::steps::{check, is_grouped, pull_stored, put_row};
use std::alloc::Global;
use tb_value::{AnyValue, OutOfMemory, Side};

/// Puts a row last on its side, and answers the ids of the other side's rows that match it, where they are told.
pub(crate) fn insert_row(
    alloc: Global,
    own: &mut SideRows,
    others: &SideRows,
    groups: &mut LateGroups,
    side: Side,
    join_nulls: bool,
    row: Vec<AnyValue>,
    tells: bool,
) -> Result<Vec<u32>, DeltaFault>
    requires { IsChanging side own.old others.now join_nulls groups.old }
    ensures changing { IsChanging side own.new others.now join_nulls groups.new }
    ensures done { IsDone tells (of_both side own.old others.now join_nulls)
        (insert side (data_of row.items))
        (of_both side own.new others.now join_nulls)
        result }
{
    check(own, &row)?;
    let Ok(key) = RowKey::of(alloc, &row[own.key]) else {
        return Err(DeltaFault::OutOfMemory);
    };
    groups.settle_told(alloc, other(side), &key, tells);
    match put_row(
        alloc,
        own,
        &mut groups.groups,
        side,
        join_nulls,
        key,
        row,
        tells,
    ) {
        Ok(ids) => Ok(ids),
        Err(OutOfMemory) => Err(DeltaFault::OutOfMemory),
    }
}

// Takes the id of a row out of its group, if it is in one, and answers the ids of the other side, where they are told.
fn take_out(
    alloc: Global,
    groups: &mut LateGroups,
    side: Side,
    join_nulls: bool,
    key: &RowKey,
    id: u32,
    tells: bool,
) -> Result<Vec<u32>, OutOfMemory>
    requires { AreAscending groups.old.groups }
    ensures taken { IsTakenOut groups.old side (agrees join_nulls (datum key.now.value)) id
        groups.new }
    ensures told { IfOk result (λ v.
        v.items ≡ (if tells then ids_left groups.old (other side) key.now else [])) }
{
    if is_grouped(join_nulls, key) {
        groups.take_out(alloc, side, key, id, tells)
    } else {
        groups.copied(alloc, other(side), key, tells)
    }
}

/// Takes the row of an id out, and answers the ids of the other side's rows that match it, where they are told.
pub(crate) fn remove_row(
    alloc: Global,
    own: &mut SideRows,
    others: &SideRows,
    groups: &mut LateGroups,
    side: Side,
    join_nulls: bool,
    id: u32,
    tells: bool,
) -> Result<Vec<u32>, DeltaFault>
    requires { IsChanging side own.old others.now join_nulls groups.old }
    ensures changing { IsChanging side own.new others.now join_nulls groups.new }
    ensures done { IsDone tells (of_both side own.old others.now join_nulls)
        (remove side id)
        (of_both side own.new others.now join_nulls)
        result }
{
    let Some(row) = pull_stored(own, id) else {
        return Err(DeltaFault::NoRow);
    };
    match take_out(alloc, groups, side, join_nulls, &row.key, id, tells) {
        Ok(ids) => Ok(ids),
        Err(OutOfMemory) => Err(DeltaFault::OutOfMemory),
    }
}
