//! The built rows that match no probed row.
ghost use Rattle.std.specs.Prelude.{◌≡◌, ◌≤◌, None, filter, length, slice_index_or, IfOk};
ghost use Rattle.tb_value.specs.Promise.Pairs.{row_numbers};
ghost use Rattle.tb_build.specs.Keys.{rows_with};
ghost use Rattle.tb_build.specs.TableView.{rows_at};
ghost use Rattle.tb_row_join.specs.Lists.{is_bare, unmatched};

use std::alloc::Global;
use tb_build::{KeyCode, KeyList, Tables, one_part_tables};
use tb_frame::JoinType;
use tb_value::{IdxSize, MAX_ROWS, OutOfMemory};

fn is_bare(rows: &[IdxSize]) -> bool
    ensures { result ≡ is_bare rows.now }
{
    rows.is_empty()
}

// The rows at whose keys the tables have no row.
fn rows_without<K: KeyCode, B: KeyList<K>>(
    alloc: Global,
    tables: &Tables<K>,
    built: &B,
) -> Result<Vec<IdxSize>, OutOfMemory>
    requires { length (B.list built.now) ≤ MAX_ROWS }
    ensures { IfOk result (λ v. v.items ≡ filter (λ k. is_bare
        (rows_at K.eq K.code tables.now (slice_index_or (B.list built.now) k None)))
        (row_numbers (length (B.list built.now)))) }
{
    let mut rows = Vec::new(alloc);
    for row in 0..built.len() {
        if is_bare(tables.rows_of(built, row)) {
            rows.push(row as IdxSize)?;
        }
    }
    Ok(rows)
}

// The built rows that match no probed row. They are looked up among the probed ones, since there may be far more pairs
// than rows.
fn unmatched_rows<K: KeyCode, B: KeyList<K>, P: KeyList<K>>(
    alloc: Global,
    join_nulls: bool,
    built: &B,
    probed: &P,
) -> Result<Vec<IdxSize>, OutOfMemory>
    requires few_built { length (B.list built.now) ≤ MAX_ROWS }
    requires few_probed { length (P.list probed.now) ≤ MAX_ROWS }
    ensures { IfOk result (λ v. v.items ≡ filter (λ k. is_bare
        (rows_with K.eq join_nulls (P.list probed.now) (slice_index_or (B.list built.now) k None)
        (length (P.list probed.now)))) (row_numbers (length (B.list built.now)))) }
{
    let tables = one_part_tables(alloc, probed, join_nulls, true)?;
    let rows = rows_without(alloc, &tables, built)?;
    Ok(rows)
}

/// The built rows that match no probed row, where a join of this kind lists them.
pub(crate) fn unlisted_rows<K: KeyCode, B: KeyList<K>, P: KeyList<K>>(
    alloc: Global,
    how: JoinType,
    join_nulls: bool,
    built: &B,
    probed: &P,
) -> Result<Vec<IdxSize>, OutOfMemory>
    requires few_built { length (B.list built.now) ≤ MAX_ROWS }
    requires few_probed { length (P.list probed.now) ≤ MAX_ROWS }
    ensures { IfOk result (λ v. v.items ≡ unmatched how
        (λ k. rows_with K.eq join_nulls (P.list probed.now)
        (slice_index_or (B.list built.now) k None)
        (length (P.list probed.now))) (length (B.list built.now))) }
{
    match how {
        JoinType::Full => unmatched_rows(alloc, join_nulls, built, probed),
        JoinType::Inner | JoinType::Left | JoinType::Right | JoinType::Semi | JoinType::Anti => {
            Ok(Vec::new(alloc))
        }
    }
}
