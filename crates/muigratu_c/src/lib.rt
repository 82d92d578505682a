//! Muigratu for programs in other languages: a request in JSON goes in, and the text of its answer into room that the
//! caller gives; or two columns of whole numbers, and the row numbers of their join. No pointer is kept, and nothing is
//! to be freed.
#![tactic(auto)]

mod rows;

ghost use Rattle.std.specs.Prelude.{◌≡◌, ◌≤◌, ◌<◌, ◌++◌, ◌==◌, IfOk, drop, length, not};
ghost use Rattle.tb_answer.specs.Promise.Due.{DueOfDummies, DueOfJoin, DueOfPivot, DueOfUnpivot};
ghost use Rattle.muigratu_c.specs.Promise.Calls.{HasAnswered};
ghost use Rattle.muigratu_c.specs.Promise.Rows.{HasRows};
ghost use Rattle.muigratu_c.specs.Given.{IsGiven};

use std::alloc::Global;
use tb_answer::{Answer, answer_dummies, answer_join, answer_pivot, answer_unpivot};
use tb_text::Text;
use tb_value::OutOfMemory;

// The status of a call that wanted memory, in the numbers of the JSON program.
const OUT_OF_MEMORY: u32 = 6;

/// How a call ended, in the numbers of the JSON program, and how many bytes the text of its answer has, or how many pairs
/// there are.
#[repr(C)]
#[derive(Drop)]
pub struct MuigratuEnded {
    pub status: u32,
    pub length: usize,
}

// Puts the text at the front of the room, where there is room for all of it.
fn hand_over(text: &Text, room: &mut [u8])
    ensures whole { length text.now ≤ length room.old
        → room.new ≡ text.now ++ drop (length text.now) room.old }
    ensures short { length room.old < length text.now → room.new ≡ room.old }
{
    if text.len() <= room.len() {
        text.copy_to(room);
    }
}

// Hands over what was answered.
fn given(answered: Result<Answer, OutOfMemory>, room: &mut [u8]) -> MuigratuEnded
    ensures { IsGiven answered room.old room.new result }
{
    match answered {
        Ok(answer) => {
            hand_over(&answer.text, room);
            MuigratuEnded {
                status: answer.status.code(),
                length: answer.text.len(),
            }
        }
        Err(OutOfMemory) => MuigratuEnded {
            status: OUT_OF_MEMORY,
            length: 0,
        },
    }
}

fn joined(alloc: Global, request: &[u8]) -> Result<Answer, OutOfMemory>
    ensures { IfOk result (λ a. DueOfJoin request.now a.status a.text) }
{
    answer_join(alloc, Vec::from_slice(alloc, request)?)
}

fn made_long(alloc: Global, request: &[u8]) -> Result<Answer, OutOfMemory>
    ensures { IfOk result (λ a. DueOfUnpivot request.now a.status a.text) }
{
    answer_unpivot(alloc, Vec::from_slice(alloc, request)?)
}

fn made_wide(alloc: Global, request: &[u8]) -> Result<Answer, OutOfMemory>
    ensures { IfOk result (λ a. DueOfPivot request.now a.status a.text) }
{
    answer_pivot(alloc, Vec::from_slice(alloc, request)?)
}

fn with_dummies(alloc: Global, request: &[u8]) -> Result<Answer, OutOfMemory>
    ensures { IfOk result (λ a. DueOfDummies request.now a.status a.text) }
{
    answer_dummies(alloc, Vec::from_slice(alloc, request)?)
}

/// Joins the two tables of a request. Its text and that of its answer are those of the JSON program. Where the room is
/// too small, it stays as it was, and the length that is handed back tells what is needed.
#[unsafe(no_mangle)]
pub extern "C" fn muigratu_join(alloc: Global, request: &[u8], room: &mut [u8]) -> MuigratuEnded
    ensures { HasAnswered (DueOfJoin request.now) room.old room.new result }
{
    given(joined(alloc, request), room)
}

/// Makes the table of a request long.
#[unsafe(no_mangle)]
pub extern "C" fn muigratu_unpivot(alloc: Global, request: &[u8], room: &mut [u8]) -> MuigratuEnded
    ensures { HasAnswered (DueOfUnpivot request.now) room.old room.new result }
{
    given(made_long(alloc, request), room)
}

/// Makes the table of a request wide.
#[unsafe(no_mangle)]
pub extern "C" fn muigratu_pivot(alloc: Global, request: &[u8], room: &mut [u8]) -> MuigratuEnded
    ensures { HasAnswered (DueOfPivot request.now) room.old room.new result }
{
    given(made_wide(alloc, request), room)
}

/// Replaces columns of the table of a request by dummies.
#[unsafe(no_mangle)]
pub extern "C" fn muigratu_dummies(alloc: Global, request: &[u8], room: &mut [u8]) -> MuigratuEnded
    ensures { HasAnswered (DueOfDummies request.now) room.old room.new result }
{
    given(with_dummies(alloc, request), room)
}

/// Joins two columns of whole numbers. A number whose mark in `left_there` or `right_there` is 0 is Null; without marks
/// none is. Where `nulls_equal` isn't 0, Nulls match each other. The row numbers of the pairs go to the front of the two
/// rooms, 4294967295 where a pair has no row of the side: by left rows and then by right rows, and those of a Right join
/// by right rows and then by left rows. A room that is too short stays as it was, and the length that is handed back
/// tells what is needed.
#[unsafe(no_mangle)]
pub extern "C" fn muigratu_rows_i64(
    alloc: Global,
    left: &[i64],
    left_there: &[u8],
    right: &[i64],
    right_there: &[u8],
    how: u32,
    nulls_equal: u32,
    left_rows: &mut [u32],
    right_rows: &mut [u32],
) -> MuigratuEnded
    ensures { HasRows (record {
      left = left.now;
      left_there = left_there.now;
      right = right.now;
      right_there = right_there.now;
      how = how;
    }) (not (nulls_equal == 0))
        left_rows.old right_rows.old left_rows.new right_rows.new result }
{
    rows::join_columns(
        alloc,
        left,
        left_there,
        right,
        right_there,
        how,
        nulls_equal != 0,
        left_rows,
        right_rows,
    )
}

/// The number of these signatures: a caller that was built for another number is not to call.
#[unsafe(no_mangle)]
pub extern "C" fn muigratu_abi() -> u32
    ensures { result ≡ 2 }
{
    2
}
