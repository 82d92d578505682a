//! The built rows of each probed row, as a join of a kind lists them.
ghost use Rattle.std.specs.Prelude.{◌≡◌, [], ◌∷◌, None, length, map, slice_index_or, IfOk};
ghost use Rattle.tb_value.specs.Promise.Pairs.{row_numbers};
ghost use Rattle.tb_build.specs.TableView.{rows_at};
ghost use Rattle.tb_row_join.specs.Lists.{alone_where, beside, no_row, or_alone, seen};

use std::alloc::Global;
use tb_build::{KeyCode, KeyList, Tables};
use tb_frame::JoinType;
use tb_value::{IdxSize, OutOfMemory};

fn or_alone<'a>(rows: &'a [IdxSize], none: &'a [IdxSize]) -> &'a [IdxSize]
    requires { none.now ≡ no_row ∷ [] }
    ensures { result.now ≡ or_alone rows.now }
{
    if rows.is_empty() { none } else { rows }
}

fn alone_where(is_alone: bool, none: &[IdxSize]) -> &[IdxSize]
    requires { none.now ≡ no_row ∷ [] }
    ensures { result.now ≡ alone_where is_alone }
{
    if is_alone { none } else { &[] }
}

// The built row of each pair that a join of this kind lists of a probed row with these built rows; `none` where the
// probed row stands alone.
fn beside<'a>(how: JoinType, rows: &'a [IdxSize], none: &'a [IdxSize]) -> &'a [IdxSize]
    requires { none.now ≡ no_row ∷ [] }
    ensures { result.now ≡ beside how rows.now }
{
    match how {
        JoinType::Inner => rows,
        JoinType::Left | JoinType::Right | JoinType::Full => or_alone(rows, none),
        JoinType::Semi => alone_where(!rows.is_empty(), none),
        JoinType::Anti => alone_where(rows.is_empty(), none),
    }
}

/// The same of each probed row, whose built rows the tables have.
pub(crate) fn listed_rows<'a, K: KeyCode, P: KeyList<K>>(
    alloc: Global,
    how: JoinType,
    tables: &'a Tables<K>,
    probed: &P,
    none: &'a [IdxSize],
) -> Result<Vec<&'a [IdxSize]>, OutOfMemory>
    requires { none.now ≡ no_row ∷ [] }
    ensures { IfOk result (λ v. seen v.items
        ≡ map (λ p. beside how
        (rows_at K.eq K.code tables.now (slice_index_or (P.list probed.now) p None)))
        (row_numbers (length (P.list probed.now)))) }
{
    let len = probed.len();
    let mut lists = Vec::with_capacity(alloc, len)?;
    for row in 0..len {
        lists.push(beside(how, tables.rows_of(probed, row), none))?;
    }
    Ok(lists)
}
