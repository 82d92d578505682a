//! The tables of a request.
ghost use Rattle.std.specs.Prelude.{◌≡◌, [], ◌∷◌, if◌then◌else◌, is_some, map, option_map, vec_len, IfOk, IsTrue, MatchResult, Ok, Err, Some, None};
ghost use Rattle.tb_json.specs.Promise.Lists.{each};
ghost use Rattle.tb_frame.specs.Promise.Table.{table_of};
ghost use Rattle.tb_request.specs.Columns.{relaid_column};
ghost use Rattle.tb_request.specs.Promise.Columns.{columns_from, tables_fit};
ghost use Rattle.tb_request.specs.Promise.Reading.{are_frames, are_tables, fault_of, may_stand, request_tables, earlier_reason, earliest_reason, FaultIs};
ghost use Rattle.tb_request.specs.Lent.{claimed_view, claimed_views, exec_view, written_views};

use crate::flags::flagged;
use crate::request::{Reason, RequestFault};
use crate::runs::tables_fit;
use crate::shape::{ExecNumbers, WrittenColumn};
use crate::values::{ClaimedColumn, are_columns, columns_of};
use std::alloc::Global;
use tb_frame::DataFrame;
use tb_pool::Exec;
use tb_store::Column;
use tb_value::{OutOfMemory, PolarsError};

fn fault_of(error: &PolarsError) -> RequestFault
    ensures { result ≡ fault_of error.now }
{
    match error {
        PolarsError::OutOfMemory => RequestFault::OutOfMemory,
        PolarsError::ShapeMismatch => RequestFault::NoRequest(Reason::Heights),
        PolarsError::Duplicate(_)
        | PolarsError::ColumnNotFound(_)
        | PolarsError::InvalidOperation(_)
        | PolarsError::ComputeError(_)
        | PolarsError::SchemaMismatch => RequestFault::NoRequest(Reason::Name),
    }
}

fn frame_of(alloc: Global, columns: Vec<Column>) -> Result<DataFrame, RequestFault>
    ensures columns { IfOk result (λ t. t ≡ columns.items) }
    ensures frame { MatchResult result
        (λ t. are_frames (table_of columns.items ∷ []) ≡ Ok tt)
        (λ e. FaultIs e (are_frames (table_of columns.items ∷ []))) }
{
    match DataFrame::new(alloc, columns) {
        Ok(frame) => Ok(frame),
        Err(error) => Err(fault_of(&error)),
    }
}

// The table of these columns with the flags that are claimed.
#[tactic(auto, unfolding(crate::specs::Promise::Reading::are_tables))]
fn table_of(alloc: Global, claimed: Vec<ClaimedColumn>) -> Result<DataFrame, RequestFault>
    ensures columns { IfOk result (λ t. map relaid_column t ≡ map claimed_view claimed.items) }
    ensures tables { MatchResult result
        (λ t. are_tables (map claimed_view claimed.items ∷ []) ≡ Ok tt)
        (λ e. FaultIs e (are_tables (map claimed_view claimed.items ∷ []))) }
{
    let claimed = flagged(alloc, claimed)?;
    let frame = frame_of(alloc, claimed.columns)?;
    if claimed.hold {
        Ok(frame)
    } else {
        Err(RequestFault::NoRequest(Reason::Flag))
    }
}

// The one of two reasons that is judged first.
fn earlier(one: Reason, other: Reason) -> Reason
    ensures { result ≡ earlier_reason one other }
{
    match (one, other) {
        (Reason::Heights, _) => Reason::Heights,
        (Reason::Name, Reason::Flag) => Reason::Name,
        _ => other,
    }
}

fn earliest(fault: Option<Reason>, reason: Reason) -> Reason
    ensures { result ≡ earliest_reason fault reason }
{
    match fault {
        Some(first) => earlier(first, reason),
        None => reason,
    }
}

// The tables of these columns with the flags that are claimed.
#[tactic(auto, using(crate::proofs::Judged::no_table, crate::proofs::Judged::one_more, crate::proofs::Judged::one_more_none))]
fn tables_from(
    alloc: Global,
    claimed: Vec<Vec<ClaimedColumn>>,
) -> Result<Vec<DataFrame>, RequestFault>
    ensures columns { IfOk result (λ ts.
        map (map relaid_column) ts.items ≡ map claimed_views claimed.items) }
    ensures tables { MatchResult result (λ ts. are_tables (map claimed_views claimed.items) ≡ Ok tt)
        (λ e. FaultIs e (are_tables (map claimed_views claimed.items))) }
{
    let mut tables = Vec::with_capacity(alloc, claimed.len())?;
    let mut fault = None;
    for columns in claimed {
        match table_of(alloc, columns) {
            Ok(table) => tables.push(table)?,
            Err(RequestFault::OutOfMemory) => return Err(RequestFault::OutOfMemory),
            Err(RequestFault::NoRequest(reason)) => fault = Some(earliest(fault, reason)),
        }
    }
    match fault {
        Some(reason) => Err(RequestFault::NoRequest(reason)),
        None => Ok(tables),
    }
}

// The columns of tables whose runs have no more rows than a request may have, or None where a value is not of its column's
// type or a column of chunks is too long.
fn claimed_of(
    alloc: Global,
    written: Vec<Vec<WrittenColumn>>,
) -> Result<Option<Vec<Vec<ClaimedColumn>>>, OutOfMemory>
    requires { IsTrue (tables_fit (map written_views written.items)) }
    ensures { IfOk result (λ o. option_map (λ v. map claimed_views v.items) o
        ≡ each columns_from (map written_views written.items)) }
{
    let mut claimed = Vec::with_capacity(alloc, written.len())?;
    for table in written {
        let Some(columns) = columns_of(alloc, table)? else {
            return Ok(None);
        };
        claimed.push(columns)?;
    }
    Ok(Some(claimed))
}

// Whether `claimed_of` would give columns, however many rows the runs have: nothing is written out.
fn are_typed(alloc: Global, written: Vec<Vec<WrittenColumn>>) -> Result<bool, OutOfMemory>
    ensures { IfOk result (λ b.
        b ≡ is_some (each columns_from (map written_views written.items))) }
{
    for table in written {
        if !are_columns(alloc, table)? {
            return Ok(false);
        }
    }
    Ok(true)
}

// The `Exec` of these numbers, or None where `Exec::new` refuses them.
fn exec_from(numbers: ExecNumbers) -> Option<Exec>
    ensures { result ≡ (if may_stand (exec_view numbers) then Some (exec_view numbers) else None) }
{
    let made = Exec::new(
        numbers.workers,
        numbers.partitions,
        numbers.small,
        numbers.num,
        numbers.den,
    );
    match made {
        Ok(exec) => Some(exec),
        Err(_) => None,
    }
}

/// The tables of a request, and how its work is run.
#[derive(Drop)]
pub struct RequestTables {
    pub tables: Vec<DataFrame>,
    pub exec: Exec,
}

/// The tables of a request that are written so, and how its work is run.
///
/// # Errors
///
/// `OutOfMemory` may come at any time. Else the first of these reasons that holds of any of the tables, or of the numbers:
/// `Value`, where a value is not of its column's type or the chunks of a column have more than `MAX_ROWS` values; `Rows`,
/// where the counts of all runs of all tables add up to more than `MAX_RUN_VALUES`; `Exec`, where `Exec::new` refuses the
/// numbers; `Heights`, where two columns of a table differ in length; `Name`, where two have one name; and `Flag`, where a
/// column is not in the order that is claimed of it.
#[tactic(auto, unfolding(crate::specs::Promise::Reading::request_tables))]
pub fn request_tables(
    alloc: Global,
    written: Vec<Vec<WrittenColumn>>,
    exec: ExecNumbers,
) -> Result<RequestTables, RequestFault>
    ensures tables { MatchResult result
        (λ r. request_tables (map written_views written.items) (exec_view exec)
        ≡ Ok (map (map relaid_column) r.tables.items))
        (λ e. FaultIs e (request_tables (map written_views written.items) (exec_view exec))) }
    ensures exec { IfOk result (λ r. r.exec ≡ exec_view exec) }
{
    if !tables_fit(&written) {
        let reason = if are_typed(alloc, written)? {
            Reason::Rows
        } else {
            Reason::Value
        };
        return Err(RequestFault::NoRequest(reason));
    }
    let Some(claimed) = claimed_of(alloc, written)? else {
        return Err(RequestFault::NoRequest(Reason::Value));
    };
    let Some(exec) = exec_from(exec) else {
        return Err(RequestFault::NoRequest(Reason::Exec));
    };
    let tables = tables_from(alloc, claimed)?;
    Ok(RequestTables { tables, exec })
}

// The one of a list of one.
fn only<T: Drop>(mut items: Vec<T>) -> T
    requires { vec_len items ≡ 1 }
    ensures { items.items ≡ result ∷ [] }
{
    match items.pop() {
        Some(item) => item,
        None => unreachable!(),
    }
}

// The two of a list of two.
fn both<T: Drop>(mut items: Vec<T>) -> (T, T)
    requires { vec_len items ≡ 2 }
    ensures { items.items ≡ result.0 ∷ result.1 ∷ [] }
{
    let last = items.pop();
    match (items.pop(), last) {
        (Some(first), Some(second)) => (first, second),
        _ => unreachable!(),
    }
}

/// The table of a request that has one, and how its work is run.
///
/// # Errors
///
/// Those of `request_tables`, of the one table.
pub fn single_table(
    alloc: Global,
    written: Vec<WrittenColumn>,
    exec: ExecNumbers,
) -> Result<(DataFrame, Exec), RequestFault>
    ensures table { MatchResult result
        (λ r. request_tables (written_views written ∷ []) (exec_view exec)
        ≡ Ok (map relaid_column r.0 ∷ []))
        (λ e. FaultIs e (request_tables (written_views written ∷ []) (exec_view exec))) }
    ensures exec { IfOk result (λ r. r.1 ≡ exec_view exec) }
{
    let mut tables = Vec::with_capacity(alloc, 1)?;
    tables.push(written)?;
    let RequestTables { tables, exec } = request_tables(alloc, tables, exec)?;
    Ok((only(tables), exec))
}

/// The tables of a request that has two, and how its work is run.
///
/// # Errors
///
/// Those of `request_tables`, of both tables.
pub fn two_tables(
    alloc: Global,
    left: Vec<WrittenColumn>,
    right: Vec<WrittenColumn>,
    exec: ExecNumbers,
) -> Result<(DataFrame, DataFrame, Exec), RequestFault>
    ensures tables { MatchResult result
        (λ r. request_tables (written_views left ∷ written_views right ∷ []) (exec_view exec)
        ≡ Ok (map relaid_column r.0 ∷ map relaid_column r.1 ∷ []))
        (λ e. FaultIs e
        (request_tables (written_views left ∷ written_views right ∷ []) (exec_view exec))) }
    ensures exec { IfOk result (λ r. r.2 ≡ exec_view exec) }
{
    let mut tables = Vec::with_capacity(alloc, 2)?;
    tables.push(left)?;
    tables.push(right)?;
    let RequestTables { tables, exec } = request_tables(alloc, tables, exec)?;
    let (left, right) = both(tables);
    Ok((left, right, exec))
}
