//! The field of a row of a column.
ghost use Rattle.std.specs.Prelude.{◌≡◌, ◌<◌, ◌++◌, OnOk, length, slice_index_or};
ghost use Rattle.tb_value.specs.Promise.Datum.{null};
ghost use Rattle.tb_chunk.specs.Promise.Col.{values};
ghost use Rattle.tb_csv.specs.Promise.Texts.{field_among, field_text};

use crate::field_text::push_value;
use tb_pieces::{PieceColumn, ReadValue};
use tb_value::{OutOfMemory, ValueRef};

// How a field of a column, of days or not, is written in a record of so many fields.
#[derive(Drop)]
struct Form {
    separator: u8,
    width: usize,
    is_day: bool,
}

impl ReadValue for Form {
    ghost use Rattle.std.specs.Prelude.{◌≡◌, ◌++◌, OnOk};
    ghost use Rattle.tb_csv.specs.Promise.Texts.{field_among, field_text};
    ghost use Rattle.tb_csv.specs.Texts.{kind_by_day};

    type State = Vec<u8>;

    type Answer = Result<(), OutOfMemory>;

    ghost gives = { λ f value before answer after. OnOk answer
        (after.items
        ≡ before.items
        ++ field_text f.separator (field_among f.width (kind_by_day f.is_day) value)) };

    fn read(&self, text: &mut Vec<u8>, value: ValueRef<'_>) -> Result<(), OutOfMemory> {
        push_value(text, self.separator, self.width, self.is_day, value)
    }
}

/// Appends the field of a row of a column, in a record of so many fields.
#[tactic(auto, using(crate::proofs::Days::among))]
pub(crate) fn push_row_field(
    text: &mut Vec<u8>,
    separator: u8,
    width: usize,
    column: &PieceColumn<'_>,
    row: usize,
) -> Result<(), OutOfMemory>
    requires { row < length (values column.now) }
    ensures { OnOk result
        (text.new.items
        ≡ text.old.items
        ++ field_text separator
        (field_among width column.now.kind (slice_index_or (values column.now) row null))) }
{
    let form = Form {
        separator,
        width,
        is_day: column.is_day(),
    };
    column.with_value(row, &form, text)
}
