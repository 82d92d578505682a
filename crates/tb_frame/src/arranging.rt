//! The order of a join's pairs, and the part of them that a slice keeps.
ghost use Rattle.std.specs.Prelude.{◌≡◌, IfOk, OnOk};
ghost use Rattle.tb_frame.specs.Answer.{IsListed};
ghost use Rattle.tb_frame.specs.Promise.Join.{IsOrdered, cut};

use crate::args::{Direction, JoinArgs, JoinType, MaintainOrderJoin};
use crate::order::direction_of;
use std::alloc::AllocError;
use tb_store::slice_offsets;
use tb_value::{JoinPair, OutOfMemory};

// Puts the pairs in the order that the arguments ask.
fn order_pairs(
    pairs: &mut Vec<JoinPair>,
    how: JoinType,
    order: MaintainOrderJoin,
) -> Result<(), AllocError>
    ensures { OnOk result (IsOrdered how order pairs.new.items pairs.old.items) }
{
    match direction_of(how, order) {
        Direction::Free => Ok(()),
        Direction::ByLeft => pairs.sort_by(|a, b| a.by_left(b)),
        Direction::ByRight => pairs.sort_by(|a, b| a.by_right(b)),
    }
}

/// The items that a slice keeps, in their order; all of them where there is none.
pub fn kept_part<T>(items: &[T], slice: Option<(i64, usize)>) -> &[T]
    ensures { result.now ≡ cut slice items.now }
{
    match slice {
        None => items,
        Some((offset, len)) => {
            let (start, count) = slice_offsets(offset, len, items.len());
            &items[start..start + count]
        }
    }
}

/// The pairs that a slice keeps, in their order; all of them where there is none.
pub fn cut_pairs(mut pairs: Vec<JoinPair>, slice: Option<(i64, usize)>) -> Vec<JoinPair>
    ensures { result.items ≡ cut slice pairs.items }
{
    if let Some((offset, len)) = slice {
        let (start, count) = slice_offsets(offset, len, pairs.len());
        pairs.copy_within(start..start + count, 0);
        pairs.truncate(count);
    }
    pairs
}

/// The pairs of a listing in the order that the arguments ask of a join of this kind, and of them those that the
/// slice keeps. The kind that the arguments name is not read.
///
/// # Errors
///
/// `OutOfMemory` where memory is wanting.
pub fn arrange(
    mut pairs: Vec<JoinPair>,
    how: JoinType,
    args: &JoinArgs,
) -> Result<Vec<JoinPair>, OutOfMemory>
    ensures { IfOk result (λ v.
        IsListed how args.now.maintain_order args.now.slice pairs.items v.items) }
{
    order_pairs(&mut pairs, how, args.maintain_order)?;
    Ok(cut_pairs(pairs, args.slice))
}
