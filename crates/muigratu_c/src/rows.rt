//! The row numbers of a join of two columns of whole numbers.
ghost use Rattle.std.specs.Prelude.{◌≡◌, ◌||◌, IfSome, is_some, length, nat_lt};
ghost use Rattle.tb_value.specs.declared.limits.TheConstants.{MAX_ROWS};
ghost use Rattle.muigratu_c.specs.Promise.Rows.{number_of, HasRows};

use crate::{MuigratuEnded, OUT_OF_MEMORY};
use std::alloc::Global;
use tb_frame::JoinType;
use tb_row_join::{NumberKeys, join_numbers};
use tb_value::{IdxSize, MAX_ROWS, OutOfMemory};

// The status of a join whose kind no number has, or whose marks are neither none nor as many as numbers.
const BAD_REQUEST: u32 = 3;

// The status of a join with more rows on a side than a table may have.
const TOO_MANY_ROWS: u32 = 8;

// The kind with this number.
fn kind_of(how: u32) -> Option<JoinType>
    ensures some { is_some result ≡ nat_lt how 6 }
    ensures kind { IfSome result (λ kind. number_of kind ≡ how) }
{
    match how {
        0 => Some(JoinType::Inner),
        1 => Some(JoinType::Left),
        2 => Some(JoinType::Right),
        3 => Some(JoinType::Full),
        4 => Some(JoinType::Semi),
        5 => Some(JoinType::Anti),
        _ => None,
    }
}

// Whether one of these is longer than a table may be.
fn are_long(left: &[i64], right: &[i64]) -> bool
    ensures { result ≡ (nat_lt MAX_ROWS (length left.now) || nat_lt MAX_ROWS (length right.now)) }
{
    left.len() > MAX_ROWS || right.len() > MAX_ROWS
}

// Without an answer.
fn without(status: u32) -> MuigratuEnded
    ensures { result ≡ record { status = status; length = 0 } }
{
    MuigratuEnded { status, length: 0 }
}

/// Joins two columns of numbers with marks by a kind that has a number, and writes the row numbers into the rooms.
pub(crate) fn join_columns(
    alloc: Global,
    left: &[i64],
    left_there: &[u8],
    right: &[i64],
    right_there: &[u8],
    how: u32,
    nulls: bool,
    left_rows: &mut [IdxSize],
    right_rows: &mut [IdxSize],
) -> MuigratuEnded
    ensures { HasRows (record {
      left = left.now;
      left_there = left_there.now;
      right = right.now;
      right_there = right_there.now;
      how = how;
    }) nulls
        left_rows.old right_rows.old left_rows.new right_rows.new result }
{
    let Some(kind) = kind_of(how) else {
        return without(BAD_REQUEST);
    };
    let Some(left_keys) = NumberKeys::new(left, left_there) else {
        return without(BAD_REQUEST);
    };
    let Some(right_keys) = NumberKeys::new(right, right_there) else {
        return without(BAD_REQUEST);
    };
    if are_long(left, right) {
        return without(TOO_MANY_ROWS);
    }
    match join_numbers(
        alloc,
        kind,
        nulls,
        &left_keys,
        &right_keys,
        left_rows,
        right_rows,
    ) {
        Ok(length) => MuigratuEnded { status: 0, length },
        Err(OutOfMemory) => without(OUT_OF_MEMORY),
    }
}
