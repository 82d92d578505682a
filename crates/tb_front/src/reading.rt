//! The tables that texts are.
ghost use Rattle.std.specs.Prelude.{◌≡◌, ℕ, List, None, true, IfOk, IfSome};
ghost use Rattle.std.specs.Thread.{IsSync};
ghost use Rattle.tb_value.specs.Promise.Names.{Name};
ghost use Rattle.tb_value.specs.Promise.Refusals.{first_cause};
ghost use Rattle.tb_frame.specs.Promise.Naming.{is_among};
ghost use Rattle.tb_frame.specs.Promise.Refusal.{first_repeated};
ghost use Rattle.tb_frame.specs.Promise.Table.{table_of};
ghost use Rattle.tb_csv.specs.Promise.Faults.{types_fault};
ghost use Rattle.tb_csv.specs.Promise.Records.{Record, records_of};
ghost use Rattle.tb_csv.specs.Promise.Tables.{csv_table};
ghost use Rattle.tb_csv.specs.Read.{IsLevel, IsRead};
ghost use Rattle.tb_front.specs.Promise.Asked.{table_fault, tables_faults};
ghost use Rattle.tb_front.specs.Promise.Due.{Gives};
ghost use Rattle.tb_front.specs.Promise.Faults.{Settles, names_in, no_records, no_table, unknown_type};
ghost use Rattle.tb_front.specs.Promise.Texts.{joined_table, joined_types, table_at, table_in};
ghost use Rattle.tb_front.specs.Tables.{AreJoined, IsMade};
ghost use Rattle.tb_front.specs.Texts.{fault_in, AreRecordsAt, AreTold, IsKept};

use crate::fault::{FrontFault, Place};
use crate::keys::check_keys;
use std::alloc::Global;
use std::thread::{self, Threads};
use tb_csv::{
    CsvFault, CsvOptions, Records, TypeOf, fault_line, records_of_csv, table_of_records,
    types_with_keys,
};
use tb_frame::{DataFrame, name_set};
use tb_value::{PlSmallStr, TOO_LONG};

// The fault of the text at this place, with its line.
fn fault_in(separator: u8, place: Place, text: &[u8], fault: CsvFault) -> FrontFault
    ensures { result ≡ fault_in separator place text.now fault }
{
    match fault {
        CsvFault::OutOfMemory => FrontFault::OutOfMemory,
        fault => {
            let line = fault_line(text, separator, &fault);
            FrontFault::NoTable { place, fault, line }
        }
    }
}

fn read_records(
    rt: &(impl Threads + Sync),
    alloc: Global,
    options: &CsvOptions,
    place: Place,
    text: &[u8],
) -> Result<Records, FrontFault>
    ensures settles { Settles result (no_records options.now place text.now) }
    ensures read { IfOk result (λ r. IsRead r (records_of options.now.separator text.now)) }
    ensures level { IfOk result (λ r. IsLevel r) }
{
    match records_of_csv(rt, alloc, text, options.separator) {
        Ok(records) => Ok(records),
        Err(fault) => Err(fault_in(options.separator, place, text, fault)),
    }
}

// The records of both texts, which are read at once.
fn read_both<R: Threads + Sync>(
    rt: &R,
    alloc: Global,
    options: &CsvOptions,
    left: &[u8],
    right: &[u8],
) -> (Result<Records, FrontFault>, Result<Records, FrontFault>)
    ensures left { AreRecordsAt options.now Place.First left.now result.0 }
    ensures right { AreRecordsAt options.now Place.Second right.now result.1 }
{
    thread::join(
        rt,
        || -> Result<Records, FrontFault>
            requires { IsSync R.row }
            ensures { AreRecordsAt options.entry.now Place.First left.entry.now result }
        { read_records(rt, alloc, options, Place::First, left) },
        || -> Result<Records, FrontFault>
            requires { IsSync R.row }
            ensures { AreRecordsAt options.entry.now Place.Second right.entry.now result }
        { read_records(rt, alloc, options, Place::Second, right) },
    )
}

// Whether each field of two texts is of the type of its column, since that is told from the fields.
fn are_told(types: &[TypeOf], left: &[u8], right: &[u8]) -> bool
    ensures { result ≡ true → AreTold types.now left.now right.now }
{
    types.is_empty() && left.len() < TOO_LONG && right.len() < TOO_LONG
}

// The text, which is let go where no fault of a field can be told of it.
fn kept_alone(options: &CsvOptions, text: Vec<u8>) -> Option<Vec<u8>>
    ensures { IsKept result text.items (types_fault options.now.types.items
        (records_of options.now.separator text.items)) }
{
    if are_told(&options.types, &text, &[]) {
        None
    } else {
        Some(text)
    }
}

// The same of two texts that are joined, whatever their keys are.
fn kept_both(
    options: &CsvOptions,
    left: Vec<u8>,
    right: Vec<u8>,
) -> (Option<Vec<u8>>, Option<Vec<u8>>)
    ensures left { (left_on right_on : List Name)
        → first_repeated (names_in (records_of options.now.separator left.items)) ≡ None
        → IsKept result.0 left.items (types_fault
        (joined_types options.now left.items right.items left_on right_on)
        (records_of options.now.separator left.items)) }
    ensures right { (left_on right_on : List Name)
        → first_repeated (names_in (records_of options.now.separator right.items)) ≡ None
        → IsKept result.1 right.items (types_fault
        (joined_types options.now right.items left.items right_on left_on)
        (records_of options.now.separator right.items)) }
{
    if are_told(&options.types, &left, &right) {
        (None, None)
    } else {
        (Some(left), Some(right))
    }
}

// The table of the records of the text at this place, which is kept if a fault of a field can be told of it.
fn make_table(
    rt: &(impl Threads + Sync),
    alloc: Global,
    separator: u8,
    place: Place,
    text: &Option<Vec<u8>>,
    records: &Records,
    types: &[TypeOf],
) -> Result<DataFrame, FrontFault>
    requires level { IsLevel records.now }
    ensures settles { (rs : List Record) (bytes : List ℕ) → IsRead records.now rs
        → IsKept text.now bytes (types_fault types.now rs)
        → Settles result (no_table separator place bytes (types_fault types.now rs)) }
    ensures table { (rs : List Record) → IsRead records.now rs
        → IfOk result (λ t. table_of t ≡ csv_table types.now rs) }
{
    match table_of_records(rt, alloc, records, types) {
        Ok(table) => Ok(table),
        Err(fault) => match text {
            Some(text) => Err(fault_in(separator, place, text, fault)),
            None => Err(FrontFault::OutOfMemory),
        },
    }
}

fn names_of(records: &Records) -> &[PlSmallStr]
    ensures { (rs : List Record) → IsRead records.now rs → result.now ≡ names_in rs }
{
    records.names()
}

/// Refuses the first type of a name that no column has.
///
/// # Errors
///
/// `UnknownType` of the first such name, or `OutOfMemory`.
pub fn check_types(
    alloc: Global,
    types: &[TypeOf],
    names: &[PlSmallStr],
    others: &[PlSmallStr],
) -> Result<(), FrontFault>
    ensures { Settles result (unknown_type types.now names.now others.now) }
{
    let known = name_set(alloc, names)?;
    let also = name_set(alloc, others)?;
    for given in types {
        if !known.contains(&given.name) && !also.contains(&given.name) {
            return Err(FrontFault::UnknownType(given.name.copy(alloc)?));
        }
    }
    Ok(())
}

/// The table of a text, which is let go.
///
/// # Errors
///
/// The first of these that holds, or `OutOfMemory`: 1 `NoTable`, as `records_of_csv` refuses the text, 2 `UnknownType`, 3 `NoTable`,
/// where a field isn't of the type of its column.
pub fn read_table(
    rt: &(impl Threads + Sync),
    alloc: Global,
    options: &CsvOptions,
    text: Vec<u8>,
) -> Result<DataFrame, FrontFault>
    ensures settles { Settles result (table_fault options.now text.items) }
    ensures table { IfOk result (λ t. table_of t ≡ table_in options.now text.items) }
{
    let records = read_records(rt, alloc, options, Place::First, &text)?;
    check_types(alloc, &options.types, names_of(&records), &[])?;
    let text = kept_alone(options, text);
    make_table(
        rt,
        alloc,
        options.separator,
        Place::First,
        &text,
        &records,
        &options.types,
    )
}

/// The table of the text at this place, which is let go. Types are given for some names, of which any may be none of its columns'.
///
/// # Errors
///
/// `NoTable`, as `records_of_csv` refuses the text, or else where a field isn't of the type of its column, or `OutOfMemory`.
pub fn read_at(
    rt: &(impl Threads + Sync),
    alloc: Global,
    options: &CsvOptions,
    place: Place,
    text: Vec<u8>,
) -> Result<DataFrame, FrontFault>
    ensures { Gives table_of result (table_at options.now place text.items) }
{
    let separator = options.separator;
    match read_records(rt, alloc, options, place, &text) {
        Ok(records) => {
            let text = kept_alone(options, text);
            make_table(rt, alloc, separator, place, &text, &records, &options.types)
        }
        Err(fault) => Err(fault),
    }
}

/// Two tables, the left one first.
#[derive(Drop)]
pub struct TwoTables {
    pub left: DataFrame,
    pub right: DataFrame,
}

// What making the tables of both by these types gives, which are made at once.
fn make_both<R: Threads + Sync>(
    rt: &R,
    alloc: Global,
    left: &Records,
    right: &Records,
    types: &[TypeOf],
) -> (Result<DataFrame, CsvFault>, Result<DataFrame, CsvFault>)
    requires left { IsLevel left.now }
    requires right { IsLevel right.now }
    ensures left { IsMade left.now types.now result.0 }
    ensures right { IsMade right.now types.now result.1 }
{
    thread::join(
        rt,
        || -> Result<DataFrame, CsvFault>
            requires shared { IsSync R.row }
            requires level { IsLevel left.now }
            ensures { IsMade left.entry.now types.entry.now result }
        { table_of_records(rt, alloc, left, types) },
        || -> Result<DataFrame, CsvFault>
            requires shared { IsSync R.row }
            requires level { IsLevel right.now }
            ensures { IsMade right.entry.now types.entry.now result }
        { table_of_records(rt, alloc, right, types) },
    )
}

// The tables by the types that are given and those that each text tells, if each key is then of one type in both. The types that
// both texts tell together are the same.
fn tables_alike(
    rt: &(impl Threads + Sync),
    alloc: Global,
    left: &Records,
    right: &Records,
    types: &[TypeOf],
    left_on: &[PlSmallStr],
    right_on: &[PlSmallStr],
) -> Option<TwoTables>
    requires left { IsLevel left.now }
    requires right { IsLevel right.now }
    ensures { (ls rs : List Record) → IsRead left.now ls → IsRead right.now rs
        → first_repeated (names_in ls) ≡ None → first_repeated (names_in rs) ≡ None
        → IfSome result (AreJoined types.now left_on.now right_on.now ls rs) }
{
    let (left, right) = make_both(rt, alloc, left, right, types);
    let (Ok(left), Ok(right)) = (left, right) else {
        return None;
    };
    match check_keys(alloc, &left, &right, left_on, right_on) {
        Ok(()) => Some(TwoTables { left, right }),
        Err(_) => None,
    }
}

/// The tables of two texts that are joined by the keys of these names, whose types are told from both texts. The texts are let go.
///
/// # Errors
///
/// The first five of `join_texts`, or `OutOfMemory`.
pub fn read_tables(
    rt: &(impl Threads + Sync),
    alloc: Global,
    options: &CsvOptions,
    left: Vec<u8>,
    right: Vec<u8>,
    left_on: &[PlSmallStr],
    right_on: &[PlSmallStr],
) -> Result<TwoTables, FrontFault>
    ensures settles { Settles result
        (first_cause (tables_faults options.now left_on.now right_on.now left.items right.items)) }
    ensures left { IfOk result (λ t.
        table_of t.left
        ≡ joined_table options.now left.items right.items left_on.now right_on.now) }
    ensures right { IfOk result (λ t.
        table_of t.right
        ≡ joined_table options.now right.items left.items right_on.now left_on.now) }
{
    let (first, second) = read_both(rt, alloc, options, &left, &right);
    let (first, second) = (first?, second?);
    let given = options.types.as_slice();
    check_types(alloc, given, names_of(&first), names_of(&second))?;
    let (left, right) = kept_both(options, left, right);
    let alike = tables_alike(rt, alloc, &first, &second, given, left_on, right_on);
    if let Some(tables) = alike {
        return Ok(tables);
    }
    let left_types = types_with_keys(alloc, &first, &second, given, left_on, right_on)?;
    let right_types = types_with_keys(alloc, &second, &first, given, right_on, left_on)?;
    let separator = options.separator;
    let left = make_table(
        rt,
        alloc,
        separator,
        Place::First,
        &left,
        &first,
        &left_types,
    )?;
    let right = make_table(
        rt,
        alloc,
        separator,
        Place::Second,
        &right,
        &second,
        &right_types,
    )?;
    Ok(TwoTables { left, right })
}
