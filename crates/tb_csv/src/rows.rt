//! Fields that stand row by row.
ghost use Rattle.std.specs.Prelude.{◌≡◌, ◌<◌, ◌+◌, ◌*◌, None, length, slice_index_or};
ghost use Rattle.tb_csv.specs.Read.{lent_field};

use crate::run::TextFields;
use crate::spans::PlainRows;

/// Fields that stand row by row. `shown` is the list of them.
pub(crate) trait Rows {
    ghost use Rattle.std.specs.Prelude.{List};
    ghost use Rattle.tb_csv.specs.Promise.Records.{Field};

    ghost shown: { Self → List Field };

    /// The bytes of the field of this column in a row of so many fields.
    fn field(&self, width: usize, column: usize, row: usize) -> Option<&[u8]>
        requires { row * width + column < length (shown self.now) }
        ensures { lent_field result ≡ slice_index_or (shown self.now) (row * width + column) None };
}

impl Rows for TextFields {
    ghost use Rattle.tb_csv.specs.Read.{text_fields};

    ghost shown = { text_fields };

    fn field(&self, width: usize, column: usize, row: usize) -> Option<&[u8]> {
        match self.get(width, column, row) {
            Some(text) => Some(text.as_bytes()),
            None => None,
        }
    }
}

impl<'a> Rows for PlainRows<'a> {
    ghost use Rattle.tb_csv.specs.Plain.{plain_fields};
    ghost use Rattle.tb_csv.specs.Read.{bare_fields};

    ghost shown = { λ r. bare_fields (plain_fields r) };

    fn field(&self, width: usize, column: usize, row: usize) -> Option<&[u8]> {
        let _len = self.len();
        let bytes = self.get(row * width + column);
        if bytes.is_empty() { None } else { Some(bytes) }
    }
}
