//! The row numbers of the pairs of a join of two lists of keys.
ghost use Rattle.std.specs.Prelude.{◌≡◌, ◌≤◌, None, length, slice_index_or, IfOk, OnErr};
ghost use Rattle.tb_build.specs.Keys.{rows_match, rows_with};
ghost use Rattle.tb_frame.specs.Promise.Join.{listing_of};
ghost use Rattle.tb_row_join.specs.Promise.Rooms.{ArePairsHandedOver};
ghost use Rattle.tb_row_join.specs.Written.{is_right, AreWritten};

use crate::beside::listed_rows;
use crate::unlisted::unlisted_rows;
use crate::writing::{count, hand_over_lists, hand_over_numbers};
use std::alloc::Global;
use tb_build::{KeyCode, KeyList, one_part_tables};
use tb_frame::JoinType;
use tb_value::{IdxSize, MAX_ROWS, OutOfMemory};

// The row numbers of what a join lists of the probed rows, in their order: those of each side into its room.
fn probe_rows<K: KeyCode, B: KeyList<K>, P: KeyList<K>>(
    alloc: Global,
    how: JoinType,
    join_nulls: bool,
    built: &B,
    probed: &P,
    built_room: &mut [IdxSize],
    probed_room: &mut [IdxSize],
) -> Result<usize, OutOfMemory>
    requires few_built { length (B.list built.now) ≤ MAX_ROWS }
    requires few_probed { length (P.list probed.now) ≤ MAX_ROWS }
    ensures written { IfOk result (AreWritten how
        (λ p. rows_with K.eq join_nulls (B.list built.now)
        (slice_index_or (P.list probed.now) p None) (length (B.list built.now)))
        (length (P.list probed.now)) (length (B.list built.now))
        built_room.old probed_room.old built_room.new probed_room.new) }
    ensures built_kept { OnErr result (built_room.new ≡ built_room.old) }
    ensures probed_kept { OnErr result (probed_room.new ≡ probed_room.old) }
{
    let behind = unlisted_rows(alloc, how, join_nulls, built, probed)?;
    let none = [IdxSize::MAX];
    let tables = one_part_tables(alloc, built, join_nulls, false)?;
    let lists = listed_rows(alloc, how, &tables, probed, &none)?;
    let many = count(&lists, &behind);
    hand_over_lists(built_room, many, &lists, &behind);
    hand_over_numbers(probed_room, many, &lists, behind.len());
    Ok(many)
}

fn is_right(how: JoinType) -> bool
    ensures { result ≡ is_right how }
{
    match how {
        JoinType::Right => true,
        JoinType::Inner | JoinType::Left | JoinType::Full | JoinType::Semi | JoinType::Anti =>
            false,
    }
}

/// Joins two lists of keys. The pairs are those that two nested loops over the rows list, by left rows and then by right
/// rows; those of a Right join by right rows and then by left rows. The left and the right row numbers of the pairs go
/// to the front of the rooms, `u32::MAX` where a pair has no row of the side. A room that is too short stays as it was.
/// Tells how many pairs there are.
///
/// A table of one side's keys is built, and the rows of the other side are looked up in it: no keys make it take more
/// steps than sorts do.
///
/// # Errors
///
/// `OutOfMemory` where memory is wanting. Both rooms are as they were then.
pub fn join_rows<K: KeyCode, L: KeyList<K>, R: KeyList<K>>(
    alloc: Global,
    how: JoinType,
    join_nulls: bool,
    left: &L,
    right: &R,
    left_room: &mut [IdxSize],
    right_room: &mut [IdxSize],
) -> Result<usize, OutOfMemory>
    requires few_left { length (L.list left.now) ≤ MAX_ROWS }
    requires few_right { length (R.list right.now) ≤ MAX_ROWS }
    ensures joined { IfOk result (ArePairsHandedOver how
        (listing_of how (length (L.list left.now)) (length (R.list right.now))
        (rows_match K.eq join_nulls (L.list left.now) (R.list right.now)))
        left_room.old right_room.old left_room.new right_room.new) }
    ensures left_kept { OnErr result (left_room.new ≡ left_room.old) }
    ensures right_kept { OnErr result (right_room.new ≡ right_room.old) }
{
    if is_right(how) {
        let left_how = JoinType::Left;
        return probe_rows(
            alloc, left_how, join_nulls, left, right, left_room, right_room,
        );
    }
    probe_rows(alloc, how, join_nulls, right, left, right_room, left_room)
}
