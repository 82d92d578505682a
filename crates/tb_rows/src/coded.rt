//! Rows sorted by their codes and values, and the first row of the same values.
ghost use Rattle.std.specs.Prelude.{◌≡◌, ◌==◌, ◌<◌, true, if◌then◌else◌, length, slice_index_or, IfOk, OnOk};
ghost use Rattle.tb_rows.specs.Coded.{code_cmp, coded_cmp, coded_rows, goes_on, no_row, same_coded, same_values, AreCoded, AreLeaders, AreSorted, AreToldByCodes};
ghost use Rattle.tb_rows.specs.Fields.{same_at};
ghost use Rattle.tb_rows.specs.InGroups.{named_rows};
ghost use Rattle.tb_rows.specs.Names.{name_of, AreNamed};

use crate::by_code::few_leaders;
use crate::fields::{code_at, compare_fields, same_fields};
use crate::names::RowNames;
use std::alloc::Global;
use std::cmp::Ordering;
use tb_store::Series;
use tb_value::{IdxSize, OutOfMemory};

/// The row of a place, with the code of its values.
#[derive(Clone, Copy)]
pub(crate) struct CodedRow {
    pub code: u64,
    pub row: IdxSize,
    pub place: IdxSize,
}

// By codes, and by values where these tie: rows of other values may have the same code.
fn compare_rows(columns: &[&Series], first: &CodedRow, second: &CodedRow) -> Ordering
    ensures { result ≡ coded_cmp columns.now first.now second.now }
{
    let order = first.code.cmp(&second.code);
    if order.is_ne() {
        return order;
    }
    compare_fields(columns, first.row as usize, second.row as usize)
}

// Whether two rows are the same. Where codes are known to tell rows apart, values are not read.
fn is_same(columns: &[&Series], first: &CodedRow, second: &CodedRow, told: bool) -> bool
    requires { told ≡ true → (first.now.code == second.now.code) ≡ true
        → same_at columns.now first.now.row second.now.row ≡ true }
    ensures { result ≡ same_coded columns.now first.now second.now }
{
    first.code == second.code
        && (told || same_fields(columns, first.row as usize, second.row as usize))
}

// Whether two rows have the same values where they have the same code.
fn is_told(columns: &[&Series], first: &CodedRow, second: &CodedRow) -> bool
    ensures { result ≡ true → (first.now.code == second.now.code) ≡ true
        → same_at columns.now first.now.row second.now.row ≡ true }
{
    first.code != second.code || same_fields(columns, first.row as usize, second.row as usize)
}

// The rows of all places, with their codes.
fn coded_rows(
    alloc: Global,
    columns: &[&Series],
    names: RowNames<'_>,
    len: usize,
) -> Result<Vec<CodedRow>, OutOfMemory>
    requires { AreNamed names len }
    ensures { IfOk result (λ v. v.items ≡ coded_rows columns.now (name_of names.entry) len) }
{
    let mut rows = Vec::with_capacity(alloc, len)?;
    for place in 0..len {
        let row = names.name(place);
        rows.push(CodedRow {
            code: code_at(columns, row as usize),
            row,
            place: place as IdxSize,
        })?;
    }
    Ok(rows)
}

// Puts rows in the order of their codes.
fn sort_by_codes(rows: &mut Vec<CodedRow>) -> Result<(), OutOfMemory>
    ensures { OnOk result (AreSorted code_cmp rows.old.items rows.new.items) }
{
    rows.sort_by(|a, b| a.code.cmp(&b.code))?;
    Ok(())
}

// Puts rows in the order of their codes, and of their values where codes tie.
fn sort_by_values(columns: &[&Series], rows: &mut Vec<CodedRow>) -> Result<(), OutOfMemory>
    ensures { OnOk result (AreSorted (coded_cmp columns.now) rows.old.items rows.new.items) }
{
    rows.sort_by(|a, b| compare_rows(columns, a, b))?;
    Ok(())
}

// Whether rows that stand side by side with one code have the same values.
fn are_told_by_codes(columns: &[&Series], rows: &[CodedRow]) -> bool
    ensures { result ≡ true → AreToldByCodes columns.now rows.now (length rows.now) }
{
    for at in 1..rows.len() {
        if !is_told(columns, &rows[at - 1], &rows[at]) {
            return false;
        }
    }
    true
}

// Puts rows of the same values together, where they stand in their order. Values are compared in the sort only where rows
// of other values have one code: keys are made for that, or it is a rare chance. Says whether codes tell the rows apart.
fn sort_rows(columns: &[&Series], rows: &mut Vec<CodedRow>) -> Result<bool, OutOfMemory>
    ensures sorted { OnOk result (AreSorted (coded_cmp columns.now) rows.old.items rows.new.items) }
    ensures told { IfOk result (λ b.
        b ≡ true → AreToldByCodes columns.now rows.new.items (length rows.new.items)) }
{
    sort_by_codes(rows)?;
    if are_told_by_codes(columns, rows.as_slice()) {
        return Ok(true);
    }
    sort_by_values(columns, rows)?;
    Ok(false)
}

// The leader of a sorted row: that of the row before it where both have the same values, and else its own place.
fn leader_at(
    columns: &[&Series],
    rows: &[CodedRow],
    at: usize,
    before: IdxSize,
    told: bool,
) -> IdxSize
    requires within { at < length rows.now }
    requires told { told ≡ true → AreToldByCodes columns.now rows.now (length rows.now) }
    ensures { result
        ≡ (if goes_on columns.now rows.now at
        then before
        else (slice_index_or rows.now at no_row).place) }
{
    if at > 0 && is_same(columns, &rows[at - 1], &rows[at], told) {
        return before;
    }
    rows[at].place
}

// For each place the first one whose row has the same values. Whatever the rows, it takes no more comparisons of rows
// than a sort.
fn sorted_leaders(
    alloc: Global,
    columns: &[&Series],
    mut rows: Vec<CodedRow>,
) -> Result<Vec<IdxSize>, OutOfMemory>
    requires { AreCoded columns.now rows.items }
    ensures { IfOk result (λ v.
        AreLeaders (same_values columns.now rows.items) (length rows.items) v.items) }
{
    let mut leaders = Vec::new(alloc);
    leaders.resize(rows.len(), 0u32)?;
    let told = sort_rows(columns, &mut rows)?;
    let mut leader = 0u32;
    for at in 0..rows.len() {
        leader = leader_at(columns, rows.as_slice(), at, leader, told);
        leaders[rows[at].place as usize] = leader;
    }
    Ok(leaders)
}

/// For each place the first one whose row has the same values. Where codes are few and tell the rows apart, a map of codes
/// finds it, and nothing else is kept of a row; else it takes no more comparisons of rows than a sort.
pub(crate) fn leaders(
    alloc: Global,
    columns: &[&Series],
    names: RowNames<'_>,
    len: usize,
) -> Result<Vec<IdxSize>, OutOfMemory>
    requires { AreNamed names len }
    ensures { IfOk result (λ v.
        AreLeaders (named_rows (name_of names.entry) (same_at columns.now)) len v.items) }
{
    if let Some(leaders) = few_leaders(alloc, columns, names, len)? {
        return Ok(leaders);
    }
    let rows = coded_rows(alloc, columns, names, len)?;
    sorted_leaders(alloc, columns, rows)
}
