//! The order of a join's pairs.
ghost use Rattle.std.specs.Prelude.{◌≡◌};
ghost use Rattle.tb_frame.specs.Promise.Join.{direction};

use crate::args::{Direction, JoinType, MaintainOrderJoin};

/// The order that the arguments ask of the pairs of a join of this kind.
pub fn direction_of(how: JoinType, order: MaintainOrderJoin) -> Direction
    ensures { result ≡ direction how order }
{
    match order {
        MaintainOrderJoin::None => by_kind(how),
        MaintainOrderJoin::Left | MaintainOrderJoin::LeftRight => Direction::ByLeft,
        MaintainOrderJoin::Right | MaintainOrderJoin::RightLeft => by_right_side(how),
    }
}

// the order that a kind has by itself
fn by_kind(how: JoinType) -> Direction
    ensures { result ≡ direction how MaintainOrderJoin.None }
{
    match how {
        JoinType::Inner | JoinType::Full => Direction::Free,
        JoinType::Right => Direction::ByRight,
        JoinType::Left | JoinType::Semi | JoinType::Anti => Direction::ByLeft,
    }
}

// Semi and Anti have no right rows
fn by_right_side(how: JoinType) -> Direction
    ensures { result ≡ direction how MaintainOrderJoin.Right }
{
    match how {
        JoinType::Semi | JoinType::Anti => Direction::ByLeft,
        _ => Direction::ByRight,
    }
}
