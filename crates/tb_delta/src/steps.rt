//! What an insert and a removal do to the rows of a side and to the groups.
ghost use Rattle.std.specs.Prelude.{◌≡◌, ◌<◌, ◌++◌, ◌∷◌, [], ◌&&◌, All, AllPairs, Bool, List, ℕ, length, IfOk, IfSome, OnErr, OnOk, option_map, if◌then◌else◌};
ghost use Rattle.tb_value.specs.Promise.Datum.{Datum};
ghost use Rattle.tb_value.specs.Promise.Same.{agrees};
ghost use Rattle.tb_value.specs.Promise.Typed.{FitsFields};
ghost use Rattle.tb_value.specs.See.{datum, data_of};
ghost use Rattle.std.specs.Option.{option_copied};
ghost use Rattle.tb_value.specs.declared.error.Side.{Side};
ghost use Rattle.tb_value.specs.declared.limits.TheConstants.{MAX_ROWS};
ghost use Rattle.tb_delta.specs.Groups.{ids_at, is_side, without, AreAscending};
ghost use Rattle.tb_delta.specs.Inside.{AreRows, IsKeyed, IsPlaced, is_grouped, key_of, pulled_agrees, side_state};
ghost use Rattle.tb_delta.specs.Promise.State.{appended, other, row_of, taken_out};
ghost use Rattle.tb_delta.specs.Stepped.{IsChecked};
ghost use Rattle.tb_delta.specs.declared.key.RowKey.{RowKey};

use crate::fault::DeltaFault;
use crate::groups::{Groups, other};
use crate::key::RowKey;
use crate::side_rows::{SideRows, StoredRow};
use std::alloc::Global;
use tb_value::{AnyValue, MAX_ROWS, OutOfMemory, Side, fits_fields};

// Refuses a row that does not fit the columns, and one more row than there may be.
pub(crate) fn check(rows: &SideRows, row: &[AnyValue]) -> Result<(), DeltaFault>
    ensures { IsChecked (side_state rows.now) (data_of row.now) result }
{
    if !fits_fields(&rows.columns, row) {
        return Err(DeltaFault::Schema);
    }
    if rows.ever as usize >= MAX_ROWS {
        return Err(DeltaFault::Full);
    }
    Ok(())
}

// Whether a key is in a group: Null is only where Nulls match.
pub(crate) fn is_grouped(join_nulls: bool, key: &RowKey) -> bool
    ensures { result ≡ is_grouped join_nulls (datum key.now.value) }
{
    join_nulls || !matches!(key.value, AnyValue::Null)
}

// Puts the id of a row into its group, if it is in one, and answers the ids of the other side, where they are told. After a
// refusal all are as they were.
fn put_in_group(
    alloc: Global,
    groups: &mut Groups,
    side: Side,
    join_nulls: bool,
    key: &RowKey,
    id: u32,
    tells: bool,
) -> Result<Vec<u32>, OutOfMemory>
    ensures ok { OnOk result ((s : Side) → (k : RowKey) → ids_at groups.new s k
        ≡ (if is_side side s && agrees join_nulls (datum key.now.value) (datum k.value)
        then ids_at groups.old s k ++ id ∷ []
        else ids_at groups.old s k)) }
    ensures told { IfOk result (λ v.
        v.items ≡ (if tells then ids_at groups.old (other side) key.now else [])) }
    ensures err { OnErr result
        ((s : Side) → (k : RowKey) → ids_at groups.new s k ≡ ids_at groups.old s k) }
{
    if is_grouped(join_nulls, key) {
        groups.put(alloc, side, key, id, tells)
    } else {
        groups.copied(alloc, other(side), key, tells)
    }
}

// Takes the id of a row out of its group, if it is in one. It takes no memory.
fn take_from_group(groups: &mut Groups, side: Side, join_nulls: bool, key: &RowKey, id: u32)
    requires { AreAscending groups.old }
    ensures { (s : Side) → (k : RowKey) → ids_at groups.new s k
        ≡ (if is_side side s && agrees join_nulls (datum key.now.value) (datum k.value)
        then without id (ids_at groups.old s k)
        else ids_at groups.old s k) }
{
    if is_grouped(join_nulls, key) {
        groups.take_out(side, key, &[id]);
    }
}

// Puts a row with its key last, and answers the ids of the other side under the key, where they are told. After a refusal all are
// as they were.
pub(crate) fn put_row(
    alloc: Global,
    rows: &mut SideRows,
    groups: &mut Groups,
    side: Side,
    join_nulls: bool,
    key: RowKey,
    row: Vec<AnyValue>,
    tells: bool,
) -> Result<Vec<u32>, OutOfMemory>
    requires fits { FitsFields (side_state rows.old).columns (data_of row.items) }
    requires keyed { datum key.value ≡ key_of (side_state rows.old) (data_of row.items) }
    requires few { rows.old.ever < MAX_ROWS }
    requires placed { IsPlaced rows.old }
    requires kept { AreRows (side_state rows.old) }
    requires ascend { AreAscending groups.old }
    requires below { (k : RowKey) → All (λ i. i < rows.old.ever) (ids_at groups.old side k) }
    ensures told { IfOk result (λ v.
        v.items ≡ (if tells then ids_at groups.old (other side) key else [])) }
    ensures placed { IsPlaced rows.new }
    ensures rows { OnOk result
        (side_state rows.new ≡ appended (data_of row.items) (side_state rows.old)) }
    ensures groups { OnOk result ((s : Side) → (k : RowKey) → ids_at groups.new s k
        ≡ (if is_side side s
        && agrees join_nulls (key_of (side_state rows.old) (data_of row.items)) (datum k.value)
        then ids_at groups.old s k ++ rows.old.ever ∷ []
        else ids_at groups.old s k)) }
    ensures rows_stay { OnErr result (side_state rows.new ≡ side_state rows.old) }
    ensures groups_stay { OnErr result
        ((s : Side) → (k : RowKey) → ids_at groups.new s k ≡ ids_at groups.old s k) }
{
    let id = rows.ever;
    let told = put_in_group(alloc, groups, side, join_nulls, &key, id, tells)?;
    match rows.rows.insert(id, StoredRow { key, values: row }) {
        Ok(_) => {
            rows.ever = id + 1;
            Ok(told)
        }
        Err(refused) => {
            let (_, row) = refused.value;
            take_from_group(groups, side, join_nulls, &row.key, id);
            Err(OutOfMemory)
        }
    }
}

// Puts a row last, and answers its id. After a refusal all are as they were.
pub(crate) fn push_row(
    alloc: Global,
    rows: &mut SideRows,
    groups: &mut Groups,
    side: Side,
    join_nulls: bool,
    row: Vec<AnyValue>,
) -> Result<u32, OutOfMemory>
    requires fits { FitsFields (side_state rows.old).columns (data_of row.items) }
    requires few { rows.old.ever < MAX_ROWS }
    requires placed { IsPlaced rows.old }
    requires kept { AreRows (side_state rows.old) }
    requires ascend { AreAscending groups.old }
    requires below { (k : RowKey) → All (λ i. i < rows.old.ever) (ids_at groups.old side k) }
    ensures id { IfOk result (λ id. id ≡ rows.old.ever) }
    ensures placed { IsPlaced rows.new }
    ensures rows { OnOk result
        (side_state rows.new ≡ appended (data_of row.items) (side_state rows.old)) }
    ensures groups { OnOk result ((s : Side) → (k : RowKey) → ids_at groups.new s k
        ≡ (if is_side side s
        && agrees join_nulls (key_of (side_state rows.old) (data_of row.items)) (datum k.value)
        then ids_at groups.old s k ++ rows.old.ever ∷ []
        else ids_at groups.old s k)) }
    ensures rows_stay { OnErr result (side_state rows.new ≡ side_state rows.old) }
    ensures groups_stay { OnErr result
        ((s : Side) → (k : RowKey) → ids_at groups.new s k ≡ ids_at groups.old s k) }
{
    let next = rows.ever;
    let key = RowKey::of(alloc, &row[rows.key])?;
    match put_row(alloc, rows, groups, side, join_nulls, key, row, false) {
        Ok(_) => Ok(next),
        Err(OutOfMemory) => Err(OutOfMemory),
    }
}

// Takes a row out of its side. It takes no memory.
pub(crate) fn pull_stored(rows: &mut SideRows, id: u32) -> Option<StoredRow>
    requires placed { IsPlaced rows.old }
    requires kept { AreRows (side_state rows.old) }
    ensures placed { IsPlaced rows.new }
    ensures row { option_map (λ s. data_of s.values.items) result
        ≡ row_of (side_state rows.old) id }
    ensures rows { side_state rows.new ≡ taken_out id (side_state rows.old) }
    ensures keyed { IfSome result (λ s. IsKeyed (side_state rows.old) (id, s)) }
{
    rows.rows.remove(&id)
}

// Takes a row out. It takes no memory.
pub(crate) fn pull_row(
    rows: &mut SideRows,
    groups: &mut Groups,
    side: Side,
    join_nulls: bool,
    id: u32,
) -> Option<Vec<AnyValue>>
    requires placed { IsPlaced rows.old }
    requires kept { AreRows (side_state rows.old) }
    requires ascend { AreAscending groups.old }
    ensures placed { IsPlaced rows.new }
    ensures row { option_map (λ v. data_of v.items) result ≡ row_of (side_state rows.old) id }
    ensures rows { side_state rows.new ≡ taken_out id (side_state rows.old) }
    ensures groups { (s : Side) → (k : RowKey) → ids_at groups.new s k
        ≡ (if is_side side s
        && pulled_agrees join_nulls (side_state rows.old) (row_of (side_state rows.old) id)
        (datum k.value)
        then without id (ids_at groups.old s k)
        else ids_at groups.old s k) }
{
    let row = pull_stored(rows, id)?;
    take_from_group(groups, side, join_nulls, &row.key, id);
    Some(row.values)
}

// The ids on the other side under the key of a row. It takes no memory.
pub(crate) fn partners_of<'a>(
    rows: &SideRows,
    groups: &'a Groups,
    beside: Side,
    id: u32,
) -> Option<&'a [u32]>
    requires placed { IsPlaced rows.now }
    ensures { (f : Datum → List ℕ) → ((k : RowKey) → ids_at groups.now beside k ≡ f (datum k.value))
        → option_copied result
        ≡ option_map (λ row. f (key_of (side_state rows.now) row))
        (row_of (side_state rows.now) id) }
{
    let row = rows.rows.get(&id)?;
    Some(groups.ids(beside, &row.key))
}
