//! The columns that an answer takes of the two tables, and their rows.
ghost use Rattle.std.specs.Prelude.{◌≡◌, IfOk, List, Some, map, unwrap_or};
ghost use Rattle.tb_value.specs.Promise.Names.{Name};
ghost use Rattle.tb_value.specs.declared.index.JoinPair.{JoinPair};
ghost use Rattle.tb_frame.specs.Promise.Naming.{default_suffix, has_right, is_among, right_name};
ghost use Rattle.tb_frame.specs.NameSets.{has_name};
ghost use Rattle.tb_frame.specs.RightColumns.{gone_left, gone_right, right_side};
ghost use Rattle.tb_frame.specs.Sides.{of_kind};

use crate::args::{JoinArgs, JoinType};
use crate::names::NameSet;
use std::alloc::Global;
use tb_value::{JoinPair, NullableIdxSize, OutOfMemory, PlSmallStr};

/// What follows the name of a right column that a left column has too.
pub fn suffix_of(args: &JoinArgs) -> &str
    ensures { result.now ≡ unwrap_or args.now.suffix default_suffix }
{
    match &args.suffix {
        Some(suffix) => suffix.as_str(),
        None => "_right",
    }
}

/// Whether the answer has right columns. A Semi or Anti join's has none.
pub fn has_right(how: JoinType) -> bool
    ensures { result ≡ has_right how }
{
    match how {
        JoinType::Inner | JoinType::Left | JoinType::Right | JoinType::Full => true,
        JoinType::Semi | JoinType::Anti => false,
    }
}

/// The right columns, or their names, of which a Semi or Anti join shows none.
pub fn right_side<'a, T>(how: JoinType, right: &'a [T]) -> &'a [T]
    ensures { result.now ≡ right_side how right.now }
{
    if has_right(how) { right } else { &[] }
}

/// The names of the left columns that the answer lacks: those of coalesced keys of a Right join. The kind that the
/// arguments name is not read.
pub fn gone_left<'a>(how: JoinType, args: &JoinArgs, left_on: &'a [PlSmallStr]) -> &'a [PlSmallStr]
    ensures { result.now ≡ gone_left (of_kind how args.now) left_on.now }
{
    match how {
        JoinType::Right if args.coalesce.coalesce(&how) => left_on,
        _ => &[],
    }
}

/// The names of the right columns that the answer lacks: those of coalesced keys. The kind that the arguments name is
/// not read.
pub fn gone_right<'a>(
    how: JoinType,
    args: &JoinArgs,
    right_on: &'a [PlSmallStr],
) -> &'a [PlSmallStr]
    ensures { result.now ≡ gone_right (of_kind how args.now) right_on.now }
{
    match how {
        JoinType::Inner | JoinType::Left | JoinType::Full => {
            if args.coalesce.coalesce(&how) {
                right_on
            } else {
                &[]
            }
        }
        JoinType::Right | JoinType::Semi | JoinType::Anti => &[],
    }
}

/// The name of a right column in the answer, beside left columns of the names that are taken.
pub fn right_name(
    alloc: Global,
    taken: &NameSet<'_>,
    suffix: &str,
    name: &PlSmallStr,
) -> Result<PlSmallStr, OutOfMemory>
    ensures { IfOk result (λ s.
        (ns : List Name) → ((n : Name) → has_name taken.now n ≡ is_among ns n)
        → s ≡ right_name ns (Some suffix.now) name.now) }
{
    if taken.contains(name) {
        name.followed_by(alloc, suffix)
    } else {
        name.copy(alloc)
    }
}

/// The left rows of the pairs, in order.
pub fn left_rows(alloc: Global, pairs: &[JoinPair]) -> Result<Vec<NullableIdxSize>, OutOfMemory>
    ensures { IfOk result (λ v. v.items ≡ map (λ (p : JoinPair). p.left) pairs.now) }
{
    let mut rows = Vec::with_capacity(alloc, pairs.len())?;
    for pair in pairs {
        rows.push(pair.left)?;
    }
    Ok(rows)
}

/// The right rows of the pairs, in order.
pub fn right_rows(alloc: Global, pairs: &[JoinPair]) -> Result<Vec<NullableIdxSize>, OutOfMemory>
    ensures { IfOk result (λ v. v.items ≡ map (λ (p : JoinPair). p.right) pairs.now) }
{
    let mut rows = Vec::with_capacity(alloc, pairs.len())?;
    for pair in pairs {
        rows.push(pair.right)?;
    }
    Ok(rows)
}
