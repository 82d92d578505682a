//! Lent columns.
ghost use Rattle.std.specs.List.{All};
ghost use Rattle.tb_chunk.specs.Col.{IsColumn};
ghost use Rattle.tb_chunk.specs.Lent.{lent_columns};

use tb_store::Series;

/// Does nothing: its contract is what holds of each column, for callers whose columns are lent.
pub fn know_columns(columns: &[&Series])
    ensures { All IsColumn (lent_columns columns.now) }
{
    for column in columns {
        let _len = column.len();
    }
}
