//! What holds of row keys, as the contracts of empty functions.
ghost use Rattle.std.specs.Prelude.{◌≡◌, ◌<◌, ◌↔◌, ◌++◌, ℕ, Bool, false, List, [], length};
ghost use Rattle.tb_value.specs.Promise.Datum.{Datum};
ghost use Rattle.tb_value.specs.Promise.Kind.{Kind};
ghost use Rattle.tb_chunk.specs.Promise.Col.{Col};
ghost use Rattle.tb_rowkey.specs.Promise.Columns.{kinds, row_count, key_at};
ghost use Rattle.tb_rowkey.specs.Columns.{AreKeyColumns, columns_meet};
ghost use Rattle.tb_rowkey.specs.Promise.RowKey.{rowkey, key_row};
ghost use Rattle.tb_value.specs.Promise.Same.{agrees};
ghost use Rattle.tb_rowkey.specs.Rows.{IsKeyRow, rows_meet};

/// Of rows of the same key types, the row keys are equal exactly where the rows are, and no row key
/// is a proper prefix of another.
pub fn one_to_one()
    ensures equal { (ts : List Kind) (fs gs : List Datum) → IsKeyRow ts fs → IsKeyRow ts gs
        → (rowkey ts fs ≡ rowkey ts gs) ↔ (fs ≡ gs) }
    ensures apart { (ts : List Kind) (fs gs : List Datum) (rest : List ℕ) → IsKeyRow ts fs → IsKeyRow ts gs →
        rowkey ts fs ++ rest ≡ rowkey ts gs → rest ≡ [] }
{}

/// Rows of columns of the same key types agree at every place exactly where their keys are present and
/// equal, so that a join by several columns is a join by their keys alone, where Nulls don't match.
pub fn columns_match()
    ensures { (nulls : ℕ → Bool) (ls rs : List Col) (i j : ℕ) → AreKeyColumns ls → AreKeyColumns rs → kinds ls ≡ kinds rs →
        i < row_count ls → j < row_count rs →
        agrees false (key_at ls nulls i) (key_at rs nulls j) ≡ columns_meet nulls ls rs i j }
{}

/// Rows of the same key types agree at every place exactly where their keys are present and equal.
pub fn keys_match()
    ensures { (ts : List Kind) (nulls : ℕ → Bool) (fs gs : List Datum) → IsKeyRow ts fs → IsKeyRow ts gs →
        agrees false (key_row ts nulls fs) (key_row ts nulls gs) ≡ rows_meet nulls (length ts) fs gs }
{}
