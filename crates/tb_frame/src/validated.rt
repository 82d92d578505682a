//! Which joins validation looks at.
ghost use Rattle.std.specs.Prelude.{◌≡◌};
ghost use Rattle.tb_frame.specs.Promise.Refusal.{is_validated};

use crate::args::JoinType;

impl JoinType {
    /// Whether validation looks at the sides of a join of this kind.
    pub fn is_validated(&self) -> bool
        ensures { result ≡ is_validated self.now }
    {
        match self {
            JoinType::Inner | JoinType::Left | JoinType::Right | JoinType::Full => true,
            JoinType::Semi | JoinType::Anti => false,
        }
    }
}
