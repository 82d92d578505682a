//! How the rows of a side run along the pairs of a join.
ghost use Rattle.std.specs.Prelude.{◌≡◌};
ghost use Rattle.tb_frame.specs.Sides.{of_kind};
ghost use Rattle.tb_join.specs.RowOrder.{left_order_asked, right_order_asked};

use tb_frame::{Direction, JoinArgs, JoinType, direction_of};
use tb_value::IsSorted;

/// Ascending where the pairs are asked in the order of the left rows and have each one. The kind that the arguments
/// name is not read.
pub(crate) fn left_order(how: JoinType, args: &JoinArgs) -> IsSorted
    ensures { result ≡ left_order_asked (of_kind how args.now) }
{
    match (direction_of(how, args.maintain_order), how) {
        (Direction::ByLeft, JoinType::Inner | JoinType::Left | JoinType::Semi | JoinType::Anti) =>
            IsSorted::Ascending,
        _ => IsSorted::Not,
    }
}

/// The same of the right rows.
pub(crate) fn right_order(how: JoinType, args: &JoinArgs) -> IsSorted
    ensures { result ≡ right_order_asked (of_kind how args.now) }
{
    match (direction_of(how, args.maintain_order), how) {
        (Direction::ByRight, JoinType::Inner | JoinType::Right) => IsSorted::Ascending,
        _ => IsSorted::Not,
    }
}
