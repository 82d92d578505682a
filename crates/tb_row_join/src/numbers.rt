//! Keys that are whole numbers in a slice.
ghost use Rattle.std.specs.Prelude.{◌≡◌, ◌≤◌, ◌<◌, ℤ, Some, true, is_some, length, slice_index_or, IfOk, IfSome, OnErr};
ghost use Rattle.tb_keys.specs.Promise.Listing.{value_listing};
ghost use Rattle.tb_row_join.specs.Marks.{is_there};
ghost use Rattle.tb_row_join.specs.Promise.Rooms.{are_marks, marked_values, ArePairsHandedOver};

use crate::rows::join_rows;
use std::alloc::Global;
use tb_build::KeyList;
use tb_frame::JoinType;
use tb_value::{IdxSize, MAX_ROWS, OutOfMemory};

/// Whole numbers, each with a mark beside it: where the mark is 0, there is no key. Where there are no marks, each number
/// is a key.
#[derive(Clone, Copy)]
pub struct NumberKeys<'a> {
    pub numbers: &'a [i64],
    pub marks: &'a [u8],
    ghost fit: { are_marks numbers.now marks.now ≡ true },
}

impl KeyList<i64> for NumberKeys<'_> {
    ghost use Rattle.tb_row_join.specs.Promise.Rooms.{marked};

    ghost list = { λ k. marked k.numbers.now k.marks.now };

    fn len(&self) -> usize {
        self.numbers.len()
    }

    fn key(&self, row: usize) -> Option<i64> {
        if is_there(self.marks, row) {
            number_at(self.numbers, row)
        } else {
            None
        }
    }
}

// Whether there are no marks, or as many as numbers.
fn are_marks(numbers: &[i64], marks: &[u8]) -> bool
    ensures { result ≡ are_marks numbers.now marks.now }
{
    if marks.is_empty() {
        return true;
    }
    marks.len() == numbers.len()
}

// Whether there is no mark, or another one than 0.
fn is_there(marks: &[u8], row: usize) -> bool
    requires { 0 < length marks.now → row < length marks.now }
    ensures { result ≡ is_there marks.now row }
{
    if marks.is_empty() {
        return true;
    }
    marks[row] != 0
}

fn number_at(numbers: &[i64], row: usize) -> Option<i64>
    requires { row < length numbers.now }
    ensures { (d : ℤ) → result ≡ Some (slice_index_or numbers.now row d) }
{
    Some(numbers[row])
}

impl<'a> NumberKeys<'a> {
    /// The numbers with these marks, where there are none or as many as numbers.
    pub fn new(numbers: &'a [i64], marks: &'a [u8]) -> Option<NumberKeys<'a>>
        ensures fit { is_some result ≡ are_marks numbers.now marks.now }
        ensures numbers { IfSome result (λ k. k.numbers.now ≡ numbers.now) }
        ensures marks { IfSome result (λ k. k.marks.now ≡ marks.now) }
    {
        if are_marks(numbers, marks) {
            Some(NumberKeys { numbers, marks })
        } else {
            None
        }
    }
}

/// Joins two lists of whole numbers as `join_rows` says. The pairs are those of two columns of these values, with Null
/// where there is no key.
///
/// # Errors
///
/// `OutOfMemory` where memory is wanting. Both rooms are as they were then.
pub fn join_numbers(
    alloc: Global,
    how: JoinType,
    join_nulls: bool,
    left: &NumberKeys<'_>,
    right: &NumberKeys<'_>,
    left_room: &mut [IdxSize],
    right_room: &mut [IdxSize],
) -> Result<usize, OutOfMemory>
    requires few_left { length left.now.numbers.now ≤ MAX_ROWS }
    requires few_right { length right.now.numbers.now ≤ MAX_ROWS }
    ensures joined { IfOk result (ArePairsHandedOver how
        (value_listing join_nulls how
        (marked_values left.now.numbers.now left.now.marks.now)
        (marked_values right.now.numbers.now right.now.marks.now))
        left_room.old right_room.old left_room.new right_room.new) }
    ensures left_kept { OnErr result (left_room.new ≡ left_room.old) }
    ensures right_kept { OnErr result (right_room.new ≡ right_room.old) }
{
    join_rows(alloc, how, join_nulls, left, right, left_room, right_room)
}
