//! The pairs that two nested loops over row numbers list.
ghost use Rattle.std.specs.Prelude.{◌≡◌, ◌<◌, ◌++◌, IfOk, OnOk, map, filter, length};
ghost use Rattle.std.specs.List.{list_any};
ghost use Rattle.tb_value.specs.Promise.Pairs.{row_numbers, both, matched_pairs, right_unmet};
ghost use Rattle.tb_value.specs.Refusals.{SettlesOutright};
ghost use Rattle.tb_frame.specs.Promise.Join.{matches, listing};
ghost use Rattle.tb_frame.specs.Promise.Table.{table_of, height};
ghost use Rattle.tb_keys.specs.Asked.{asked_request};
ghost use Rattle.tb_keys.specs.Causes.{too_many};
ghost use Rattle.tb_keys.specs.Met.{left_alone};

use crate::agreeing::rows_match;
use crate::request::LentRequest;
use std::alloc::Global;
use tb_frame::JoinType;
use tb_value::{ComputeCause, IdxSize, JoinPair, MAX_ROWS, OutOfMemory, PolarsError, PolarsResult};

// Puts the pairs of one left row behind the others.
fn push_matches(
    pairs: &mut Vec<JoinPair>,
    request: &LentRequest<'_>,
    i: usize,
) -> Result<(), OutOfMemory>
    requires row { i < height (table_of request.now.left.now) }
    requires small { i < 4294967295 }
    ensures { OnOk result (pairs.new.items ≡ pairs.old.items
        ++ map (both i) (filter (matches (asked_request request.now) i) (row_numbers (height (table_of request.now.right.now))))) }
{
    for j in 0..request.right.height() {
        if rows_match(request, i, j) {
            pairs.push(JoinPair::both(i as IdxSize, j as IdxSize))?;
        }
    }
    Ok(())
}

// Puts the matched pairs behind the others, the left row outside and the right row inside.
fn push_matched(pairs: &mut Vec<JoinPair>, request: &LentRequest<'_>) -> Result<(), OutOfMemory>
    ensures { OnOk result (pairs.new.items ≡ pairs.old.items
        ++ matched_pairs (height (table_of request.now.left.now)) (height (table_of request.now.right.now)) (matches (asked_request request.now))) }
{
    for i in 0..request.left.height() {
        push_matches(pairs, request, i)?;
    }
    Ok(())
}

// Whether a left row has a match.
fn is_left_met(request: &LentRequest<'_>, i: usize) -> bool
    requires { i < height (table_of request.now.left.now) }
    ensures { result
        ≡ list_any (matches (asked_request request.now) i)
        (row_numbers (height (table_of request.now.right.now))) }
{
    for j in 0..request.right.height() {
        if rows_match(request, i, j) {
            return true;
        }
    }
    false
}

// Whether a right row has a match.
fn is_right_met(request: &LentRequest<'_>, j: usize) -> bool
    requires { j < height (table_of request.now.right.now) }
    ensures { result
        ≡ list_any (λ i. matches (asked_request request.now) i j)
        (row_numbers (height (table_of request.now.left.now))) }
{
    for i in 0..request.left.height() {
        if rows_match(request, i, j) {
            return true;
        }
    }
    false
}

// Puts the left rows that have a match behind the others, or those that have none.
fn push_left(
    pairs: &mut Vec<JoinPair>,
    request: &LentRequest<'_>,
    met: bool,
) -> Result<(), OutOfMemory>
    ensures { OnOk result (pairs.new.items ≡ pairs.old.items
        ++ left_alone met (height (table_of request.now.left.now)) (height (table_of request.now.right.now)) (matches (asked_request request.now))) }
{
    for i in 0..request.left.height() {
        if is_left_met(request, i) == met {
            pairs.push(JoinPair::left_only(i as IdxSize))?;
        }
    }
    Ok(())
}

// Puts the right rows that have no match behind the others.
fn push_right_unmet(pairs: &mut Vec<JoinPair>, request: &LentRequest<'_>) -> Result<(), OutOfMemory>
    ensures { OnOk result (pairs.new.items ≡ pairs.old.items
        ++ right_unmet (height (table_of request.now.left.now)) (height (table_of request.now.right.now)) (matches (asked_request request.now))) }
{
    for j in 0..request.right.height() {
        if !is_right_met(request, j) {
            pairs.push(JoinPair::right_only(j as IdxSize))?;
        }
    }
    Ok(())
}

fn push_pairs(pairs: &mut Vec<JoinPair>, request: &LentRequest<'_>) -> Result<(), OutOfMemory>
    ensures { OnOk result
        (pairs.new.items ≡ pairs.old.items ++ listing (asked_request request.now)) }
{
    match request.how {
        JoinType::Inner => push_matched(pairs, request),
        JoinType::Left => {
            push_matched(pairs, request)?;
            push_left(pairs, request, false)
        }
        JoinType::Right => {
            push_matched(pairs, request)?;
            push_right_unmet(pairs, request)
        }
        JoinType::Full => {
            push_matched(pairs, request)?;
            push_left(pairs, request, false)?;
            push_right_unmet(pairs, request)
        }
        JoinType::Semi => push_left(pairs, request, true),
        JoinType::Anti => push_left(pairs, request, false),
    }
}

/// The listing of the request.
pub fn list_pairs(alloc: Global, request: &LentRequest<'_>) -> Result<Vec<JoinPair>, OutOfMemory>
    ensures { IfOk result (λ v. v.items ≡ listing (asked_request request.now)) }
{
    let mut pairs = Vec::new(alloc);
    push_pairs(&mut pairs, request)?;
    Ok(pairs)
}

/// Refuses more pairs than a table has rows (TooManyRows).
pub fn check_size(pairs: &[JoinPair]) -> PolarsResult<()>
    ensures { SettlesOutright result (too_many (length pairs.now)) }
{
    if pairs.len() > MAX_ROWS {
        return Err(PolarsError::ComputeError(ComputeCause::TooManyRows));
    }
    Ok(())
}
