//! The cells of a column, for the rows of a piece.
ghost use Rattle.std.specs.Prelude.{◌≡◌, ◌<◌, ◌≤◌, ◌++◌, ◌-◌, IfOk, drop, length, slice_index_or, take};
ghost use Rattle.tb_value.specs.Promise.Datum.{null};
ghost use Rattle.tb_chunk.specs.Promise.Col.{values};
ghost use Rattle.tb_layout.specs.Cells.{padded_value};
ghost use Rattle.tb_layout.specs.Promise.Lines.{blanks};
ghost use Rattle.tb_layout.specs.Room.{with_cut};
ghost use Rattle.tb_layout.specs.Widths.{widest_cell};

use crate::cells::{Digits, cell_width, push_value};
use tb_pieces::{PieceColumn, ReadValue};
use tb_value::{OutOfMemory, ValueRef};

// The width of the widest of the cells that were measured, and room for the texts of numbers.
#[derive(Drop)]
struct Widest {
    digits: Digits,
    width: usize,
}

// How the cells of a column, of days or not, are measured.
#[derive(Drop)]
struct Measure {
    line: usize,
    is_day: bool,
}

impl ReadValue for Measure {
    ghost use Rattle.std.specs.Prelude.{◌≡◌, max, min};
    ghost use Rattle.tb_layout.specs.Cells.{kind_by_day};
    ghost use Rattle.tb_layout.specs.Promise.Characters.{width_of};
    ghost use Rattle.tb_layout.specs.Promise.Lines.{cell_of};

    type State = Widest;

    type Answer = ();

    ghost gives = { λ m value before _ after.
        after.width
        ≡ max before.width (min m.line (width_of (cell_of (kind_by_day m.is_day) value))) };

    fn read(&self, widest: &mut Widest, value: ValueRef<'_>) {
        let width = cell_width(&mut widest.digits, self.is_day, value, self.line);
        widest.width = widest.width.max(width);
    }
}

// How the cell of a column, of days or not, is written, as far as the room of the line goes.
#[derive(Drop)]
struct Form {
    room: Option<usize>,
    width: usize,
    is_day: bool,
}

impl ReadValue for Form {
    ghost use Rattle.std.specs.Prelude.{◌≡◌, ◌++◌, IfOk};
    ghost use Rattle.tb_layout.specs.Cells.{kind_by_day, padded_value};
    ghost use Rattle.tb_layout.specs.Promise.Lines.{blanks};
    ghost use Rattle.tb_layout.specs.Room.{with_cut};

    type State = Vec<u8>;

    type Answer = Result<Option<usize>, OutOfMemory>;

    ghost gives = { λ f value before answer after. IfOk answer (λ room.
        (after.items, room)
        ≡ with_cut (before.items, f.room)
        (padded_value (kind_by_day f.is_day) f.width value ++ blanks 2)) };

    fn read(&self, text: &mut Vec<u8>, value: ValueRef<'_>) -> Result<Option<usize>, OutOfMemory> {
        push_value(text, self.room, self.is_day, value, self.width)
    }
}

/// The width of the widest cell of the rows from one number up to another.
pub(crate) fn widest_cell(column: &PieceColumn<'_>, line: usize, start: usize, end: usize) -> usize
    requires order { start ≤ end }
    requires within { end ≤ length (values column.now) }
    ensures { result
        ≡ widest_cell line column.now.kind (take (end - start) (drop start (values column.now))) }
{
    let measure = Measure {
        line,
        is_day: column.is_day(),
    };
    let mut widest = Widest {
        digits: Digits::new(),
        width: 0,
    };
    column.with_values(start, end, &measure, &mut widest);
    widest.width
}

/// Appends the cell of a row, where the column is so wide, and two blanks, as far as the room of the line goes. Answers the room
/// behind them.
#[tactic(auto, using(crate::proofs::Days::padded_by_day))]
pub(crate) fn push_row_cell(
    text: &mut Vec<u8>,
    room: Option<usize>,
    column: &PieceColumn<'_>,
    width: usize,
    row: usize,
) -> Result<Option<usize>, OutOfMemory>
    requires { row < length (values column.now) }
    ensures { IfOk result (λ after.
        (text.new.items, after)
        ≡ with_cut (text.old.items, room)
        (padded_value column.now.kind width (slice_index_or (values column.now) row null)
        ++ blanks 2)) }
{
    let form = Form {
        room,
        width,
        is_day: column.is_day(),
    };
    column.with_value(row, &form, text)
}
