//! Row numbers written into a room.
ghost use Rattle.std.specs.Prelude.{◌≡◌, ◌+◌, ◌<◌, ◌≤◌, ◌++◌, drop, length, replicate, take, All};
ghost use Rattle.tb_row_join.specs.Lists.{concatenated, no_row, repeated};
ghost use Rattle.tb_row_join.specs.Promise.Rooms.{IsHandedOver};

use tb_value::{IdxSize, MAX_ROWS};

/// How many numbers stand in the lists and behind them.
pub(crate) fn count(lists: &[&[IdxSize]], behind: &[IdxSize]) -> usize
    requires many { length lists.now ≤ MAX_ROWS }
    requires each { All (λ list. length list.now ≤ MAX_ROWS) lists.now }
    requires few { length behind.now ≤ MAX_ROWS }
    ensures { result ≡ length (concatenated lists.now) + length behind.now }
{
    let mut count = behind.len();
    for list in lists {
        count += list.len();
    }
    count
}

// Writes these numbers from a place on.
fn put(room: &mut [IdxSize], at: usize, rows: &[IdxSize])
    requires { at + length rows.now ≤ length room.old }
    ensures { room.new
        ≡ take at room.old ++ (rows.now ++ drop (at + length rows.now) room.old) }
{
    room[at..at + rows.len()].copy_from_slice(rows);
}

fn fill(room: &mut [IdxSize], row: IdxSize)
    ensures { room.new ≡ replicate (length room.old) row }
{
    for place in room.iter_mut() {
        *place = row;
    }
}

// Writes a number so many times from a place on.
fn repeat(room: &mut [IdxSize], at: usize, times: usize, row: IdxSize)
    requires { at + times ≤ length room.old }
    ensures { room.new ≡ take at room.old ++ (replicate times row ++ drop (at + times) room.old) }
{
    fill(&mut room[at..at + times], row);
}

// Writes the lists one after another, and what stands behind them.
fn write_lists(room: &mut [IdxSize], lists: &[&[IdxSize]], behind: &[IdxSize])
    requires { length (concatenated lists.now) + length behind.now ≤ length room.old }
    ensures { room.new
        ≡ (concatenated lists.now ++ behind.now)
        ++ drop (length (concatenated lists.now ++ behind.now)) room.old }
{
    let mut at = 0;
    for list in lists {
        put(room, at, list);
        at += list.len();
    }
    put(room, at, behind);
}

// Writes the number of each list as often as it has elements, and no row so many times behind them.
fn write_numbers(room: &mut [IdxSize], lists: &[&[IdxSize]], behind: usize)
    requires few { length lists.now ≤ MAX_ROWS }
    requires room { length (concatenated lists.now) + behind ≤ length room.old }
    ensures { room.new
        ≡ (repeated 0 lists.now ++ replicate behind no_row)
        ++ drop (length (repeated 0 lists.now ++ replicate behind no_row)) room.old }
{
    let mut at = 0;
    for (row, list) in lists.iter().enumerate() {
        repeat(room, at, list.len(), row as IdxSize);
        at += list.len();
    }
    repeat(room, at, behind, IdxSize::MAX);
}

/// Hands over what stands in the lists and behind them, so many numbers.
pub(crate) fn hand_over_lists(
    room: &mut [IdxSize],
    count: usize,
    lists: &[&[IdxSize]],
    behind: &[IdxSize],
)
    requires { count ≡ length (concatenated lists.now) + length behind.now }
    ensures { IsHandedOver (concatenated lists.now ++ behind.now) room.old room.new }
{
    if count <= room.len() {
        write_lists(room, lists, behind);
    }
}

/// Hands over the numbers of the lists, each as often as it has elements, and no row so many times behind them.
pub(crate) fn hand_over_numbers(
    room: &mut [IdxSize],
    count: usize,
    lists: &[&[IdxSize]],
    behind: usize,
)
    requires few { length lists.now ≤ MAX_ROWS }
    requires count { count ≡ length (concatenated lists.now) + behind }
    ensures { IsHandedOver (repeated 0 lists.now ++ replicate behind no_row) room.old room.new }
{
    if count <= room.len() {
        write_numbers(room, lists, behind);
    }
}
