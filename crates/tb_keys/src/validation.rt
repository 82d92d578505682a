//! Whether a key stands on two rows of a side that is to have each key once.
ghost use Rattle.std.specs.Prelude.{◌≡◌, ◌&&◌, ◌||◌, ◌∷◌, [], All};
ghost use Rattle.std.specs.List.{list_any};
ghost use Rattle.tb_value.specs.Promise.Datum.{is_present};
ghost use Rattle.tb_value.specs.Promise.Pairs.{row_numbers};
ghost use Rattle.tb_value.specs.Promise.Refusals.{first_cause, when};
ghost use Rattle.tb_value.specs.Refusals.{SettlesOutright};
ghost use Rattle.tb_value.specs.See.{lent_value};
ghost use Rattle.tb_value.specs.declared.error.ComputeCause.TheVariants.{Validation};
ghost use Rattle.tb_value.specs.declared.error.PolarsError.TheVariants.{ComputeError};
ghost use Rattle.tb_frame.specs.Promise.Join.{flag_at};
ghost use Rattle.tb_frame.specs.Promise.Refusal.{are_twins, broken_left, broken_right, has_twins, is_counted, is_validated, same_keys};
ghost use Rattle.tb_frame.specs.Promise.Table.{table_of};
ghost use Rattle.tb_keys.specs.Asked.{asked_request};
ghost use Rattle.tb_chunk.specs.Lent.{lent_columns};
ghost use Rattle.tb_keys.specs.Rows.{HasRow, HasRows};

use crate::agreeing::is_null;
use crate::request::LentRequest;
use tb_frame::JoinNulls;
use tb_store::Series;
use tb_value::{ComputeCause, PolarsError, PolarsResult, Side, ValueRef, same_value};

fn counts(null_matches: bool, value: ValueRef<'_>) -> bool
    ensures { result ≡ (is_present (lent_value value.entry) || null_matches) }
{
    !is_null(value) || null_matches
}

// Whether a row's keys count.
fn is_counted(nulls: &JoinNulls, keys: &[&Series], i: usize) -> bool
    requires { All (HasRow i) (lent_columns keys.now) }
    ensures { result ≡ is_counted (flag_at nulls.now) (table_of (lent_columns keys.now)) i }
{
    for p in 0..keys.len() {
        if !counts(nulls.flag_at(p), keys[p].get(i)) {
            return false;
        }
    }
    true
}

// Whether two rows have the same keys.
fn same_keys(keys: &[&Series], i: usize, j: usize) -> bool
    requires first { All (HasRow i) (lent_columns keys.now) }
    requires second { All (HasRow j) (lent_columns keys.now) }
    ensures { result ≡ same_keys (table_of (lent_columns keys.now)) i j }
{
    for p in 0..keys.len() {
        if !same_value(keys[p].get(i), keys[p].get(j)) {
            return false;
        }
    }
    true
}

// Whether these rows are two counted ones, in this order, that have the same keys.
fn are_twins(nulls: &JoinNulls, keys: &[&Series], i: usize, j: usize) -> bool
    requires first { All (HasRow i) (lent_columns keys.now) }
    requires second { All (HasRow j) (lent_columns keys.now) }
    ensures { result ≡ are_twins (flag_at nulls.now) (table_of (lent_columns keys.now)) i j }
{
    i < j && is_counted(nulls, keys, i) && is_counted(nulls, keys, j) && same_keys(keys, i, j)
}

// Whether a row has a twin among n rows.
fn has_twin(nulls: &JoinNulls, keys: &[&Series], i: usize, n: usize) -> bool
    requires first { All (HasRow i) (lent_columns keys.now) }
    requires rows { HasRows n (lent_columns keys.now) }
    ensures { result
        ≡ list_any (are_twins (flag_at nulls.now) (table_of (lent_columns keys.now)) i)
        (row_numbers n) }
{
    for j in 0..n {
        if are_twins(nulls, keys, i, j) {
            return true;
        }
    }
    false
}

// Whether two counted rows of n have the same keys.
fn has_twins(nulls: &JoinNulls, keys: &[&Series], n: usize) -> bool
    requires { HasRows n (lent_columns keys.now) }
    ensures { result ≡ has_twins (flag_at nulls.now) (table_of (lent_columns keys.now)) n }
{
    for i in 0..n {
        if has_twin(nulls, keys, i, n) {
            return true;
        }
    }
    false
}

// Whether a side of n rows has twins, where it is asked to have none.
fn is_broken(request: &LentRequest<'_>, is_asked: bool, keys: &[&Series], n: usize) -> bool
    requires { HasRows n (lent_columns keys.now) }
    ensures { result
        ≡ (is_validated request.now.how && is_asked
        && has_twins (flag_at request.now.args.now.join_nulls)
        (table_of (lent_columns keys.now)) n) }
{
    request.how.is_validated() && is_asked && has_twins(&request.args.join_nulls, keys, n)
}

// Refuses a side that is broken (Validation).
fn check_side(is_broken: bool, side: Side) -> PolarsResult<()>
    ensures { SettlesOutright result (when is_broken (ComputeError (Validation side))) }
{
    if is_broken {
        return Err(PolarsError::ComputeError(ComputeCause::Validation(side)));
    }
    Ok(())
}

fn check_left(request: &LentRequest<'_>) -> PolarsResult<()>
    ensures { SettlesOutright result (broken_left (asked_request request.now)) }
{
    let is_asked = request.args.validation.asks_left();
    let is_broken = is_broken(request, is_asked, request.left_keys, request.left.height());
    check_side(is_broken, Side::Left)
}

fn check_right(request: &LentRequest<'_>) -> PolarsResult<()>
    ensures { SettlesOutright result (broken_right (asked_request request.now)) }
{
    let is_asked = request.args.validation.asks_right();
    let is_broken = is_broken(
        request,
        is_asked,
        request.right_keys,
        request.right.height(),
    );
    check_side(is_broken, Side::Right)
}

/// Refuses a side that is asked to have each key once and has a key twice (Validation). The left side comes first.
pub fn check_sides(request: &LentRequest<'_>) -> PolarsResult<()>
    ensures { SettlesOutright result
        (first_cause
        (broken_left (asked_request request.now) ∷ broken_right (asked_request request.now)
        ∷ [])) }
{
    check_left(request)?;
    check_right(request)
}
