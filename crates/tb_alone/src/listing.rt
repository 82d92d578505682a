//! The pairs that a join lists, of the right rows that are found for each left row.
ghost use Rattle.std.specs.Prelude.{◌≡◌, ◌<◌, ◌≤◌, ◌++◌, ◌||◌, ℕ, true, false, Some, All, IfErr, IfOk, OnOk, map, length, nat_eq, nat_lt, slice_index_or};
ghost use Rattle.std.specs.List.{list_any};
ghost use Rattle.tb_value.specs.Promise.Pairs.{both};
ghost use Rattle.tb_value.specs.Refusals.{Settles};
ghost use Rattle.tb_frame.specs.Promise.Join.{matches, listing};
ghost use Rattle.tb_frame.specs.Promise.Refusal.{too_many_rows};
ghost use Rattle.tb_frame.specs.Promise.Table.{table_of, height};
ghost use Rattle.tb_keys.specs.Asked.{asked_request};
ghost use Rattle.tb_alone.specs.Found.{AreFound, AreMarked, left_alone_of, matched_of, right_unmet_of};

use std::alloc::Global;
use tb_frame::JoinType;
use tb_keys::{LentRequest, check_size};
use tb_value::{ComputeCause, IdxSize, JoinPair, MAX_ROWS, OutOfMemory, PolarsError, PolarsResult};

// Puts the pairs of one left row behind the others.
fn push_matches(
    pairs: &mut Vec<JoinPair>,
    left: IdxSize,
    rows: &[IdxSize],
) -> Result<(), OutOfMemory>
    requires left { left < u32.MAX }
    requires rows { All (λ row. row < u32.MAX) rows.now }
    ensures { OnOk result (pairs.new.items ≡ pairs.old.items ++ map (both left) rows.now) }
{
    for row in rows {
        pairs.push(JoinPair::both(left, *row))?;
    }
    Ok(())
}

// Puts the matched pairs behind the others, the left row outside and the right row inside.
fn push_matched(
    pairs: &mut Vec<JoinPair>,
    request: &LentRequest<'_>,
    found: &[&[IdxSize]],
) -> Result<(), OutOfMemory>
    requires found { AreFound (asked_request request.now) (map (λ r. r.now) found.now) }
    ensures { OnOk result (pairs.new.items ≡ pairs.old.items
        ++ matched_of (asked_request request.now)) }
{
    for i in 0..request.left.height() {
        push_matches(pairs, i as IdxSize, found[i])?;
    }
    Ok(())
}

fn has_rows(rows: &[IdxSize]) -> bool
    ensures { result ≡ nat_lt 0 (length rows.now) }
{
    !rows.is_empty()
}

// Puts the left rows that have a match behind the others, or those that have none.
fn push_left(
    pairs: &mut Vec<JoinPair>,
    request: &LentRequest<'_>,
    found: &[&[IdxSize]],
    met: bool,
) -> Result<(), OutOfMemory>
    requires found { AreFound (asked_request request.now) (map (λ r. r.now) found.now) }
    ensures { OnOk result (pairs.new.items ≡ pairs.old.items
        ++ left_alone_of met (asked_request request.now)) }
{
    for i in 0..request.left.height() {
        if has_rows(found[i]) == met {
            pairs.push(JoinPair::left_only(i as IdxSize))?;
        }
    }
    Ok(())
}

// Marks these rows.
fn mark(met: &mut [bool], rows: &[IdxSize])
    requires { All (λ row. row < length met.old) rows.now }
    ensures len { length met.new ≡ length met.old }
    ensures marks { (k : ℕ) → k < length met.old
        → slice_index_or met.new k false
        ≡ (slice_index_or met.old k false || list_any (nat_eq k) rows.now) }
{
    for row in rows {
        met[*row as usize] = true;
    }
}

fn unmarked(alloc: Global, len: usize) -> Result<Vec<bool>, OutOfMemory>
    ensures { IfOk result (λ v. AreMarked (λ i j. false) 0 len v.items) }
{
    Ok(vec![in alloc; false; len]?)
}

// Which right rows have a match.
fn met_rows(
    alloc: Global,
    request: &LentRequest<'_>,
    found: &[&[IdxSize]],
) -> Result<Vec<bool>, OutOfMemory>
    requires found { AreFound (asked_request request.now) (map (λ r. r.now) found.now) }
    ensures { IfOk result (λ v.
        AreMarked (matches (asked_request request.now)) (height (table_of request.now.left.now))
        (height (table_of request.now.right.now)) v.items) }
{
    let mut met = unmarked(alloc, request.right.height())?;
    for i in 0..request.left.height() {
        mark(met.as_mut_slice(), found[i]);
    }
    Ok(met)
}

// Puts the right rows that have no match behind the others.
fn push_right_unmet(
    alloc: Global,
    pairs: &mut Vec<JoinPair>,
    request: &LentRequest<'_>,
    found: &[&[IdxSize]],
) -> Result<(), OutOfMemory>
    requires found { AreFound (asked_request request.now) (map (λ r. r.now) found.now) }
    ensures { OnOk result (pairs.new.items ≡ pairs.old.items
        ++ right_unmet_of (asked_request request.now)) }
{
    let met = met_rows(alloc, request, found)?;
    for j in 0..request.right.height() {
        if !met[j] {
            pairs.push(JoinPair::right_only(j as IdxSize))?;
        }
    }
    Ok(())
}

fn push_pairs(
    alloc: Global,
    pairs: &mut Vec<JoinPair>,
    request: &LentRequest<'_>,
    found: &[&[IdxSize]],
) -> Result<(), OutOfMemory>
    requires found { AreFound (asked_request request.now) (map (λ r. r.now) found.now) }
    ensures { OnOk result
        (pairs.new.items ≡ pairs.old.items ++ listing (asked_request request.now)) }
{
    match request.how {
        JoinType::Inner => push_matched(pairs, request, found),
        JoinType::Left => {
            push_matched(pairs, request, found)?;
            push_left(pairs, request, found, false)
        }
        JoinType::Right => {
            push_matched(pairs, request, found)?;
            push_right_unmet(alloc, pairs, request, found)
        }
        JoinType::Full => {
            push_matched(pairs, request, found)?;
            push_left(pairs, request, found, false)?;
            push_right_unmet(alloc, pairs, request, found)
        }
        JoinType::Semi => push_left(pairs, request, found, true),
        JoinType::Anti => push_left(pairs, request, found, false),
    }
}

// Whether more right rows are found than a table has.
fn are_too_many(request: &LentRequest<'_>, found: &[&[IdxSize]]) -> bool
    requires found { AreFound (asked_request request.now) (map (λ r. r.now) found.now) }
    ensures { result ≡ true → MAX_ROWS
        < length (matched_of (asked_request request.now)) }
{
    let mut count = 0usize;
    for i in 0..request.left.height() {
        count += found[i].len();
        if count > MAX_ROWS {
            return true;
        }
    }
    false
}

// Refuses more pairs of two rows than a table has rows (TooManyRows), before any is listed. Semi and Anti joins, which
// are not validated, list none.
fn check_room(request: &LentRequest<'_>, found: &[&[IdxSize]]) -> PolarsResult<()>
    requires found { AreFound (asked_request request.now) (map (λ r. r.now) found.now) }
    ensures { IfErr result (λ e. too_many_rows (asked_request request.now) ≡ Some e) }
{
    if request.how.is_validated() && are_too_many(request, found) {
        return Err(PolarsError::ComputeError(ComputeCause::TooManyRows));
    }
    Ok(())
}

/// The listing of the request, of the right rows that match each left row. Refuses more pairs than a table has rows
/// (TooManyRows).
pub(crate) fn list_found(
    alloc: Global,
    request: &LentRequest<'_>,
    found: &[&[IdxSize]],
) -> PolarsResult<Vec<JoinPair>>
    requires found { AreFound (asked_request request.now) (map (λ r. r.now) found.now) }
    ensures settles { Settles result (too_many_rows (asked_request request.now)) }
    ensures listed { IfOk result (λ v. v.items ≡ listing (asked_request request.now)) }
{
    check_room(request, found)?;
    let mut pairs = Vec::new(alloc);
    push_pairs(alloc, &mut pairs, request, found)?;
    check_size(&pairs)?;
    Ok(pairs)
}
