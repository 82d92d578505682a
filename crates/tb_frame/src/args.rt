//! The arguments of a join.
ghost use Rattle.std.specs.Prelude.{◌≡◌, IfOk, None, false};
ghost use Rattle.tb_frame.specs.Promise.Naming.{coalesce, coalesces};
ghost use Rattle.tb_frame.specs.Promise.Refusal.{asks_left, asks_right, asks_a_side};
ghost use Rattle.tb_frame.specs.Sides.{flip};

use crate::null_flags::JoinNulls;
use std::alloc::Global;
use tb_value::{OutOfMemory, PlSmallStr};

/// Which rows a join puts side by side, and which it keeps alone.
#[derive(Clone, Copy, PartialEq, Eq, Debug)]
pub enum JoinType {
    /// The matched pairs.
    Inner,
    /// The matched pairs, and the left rows without a match.
    Left,
    /// The matched pairs, and the right rows without a match.
    Right,
    /// The matched pairs, and the rows of both sides without a match.
    Full,
    /// The left rows with a match.
    Semi,
    /// The left rows without a match.
    Anti,
}

/// How often a key may stand on each side.
#[derive(Clone, Copy, PartialEq, Eq, Debug)]
pub enum JoinValidation {
    ManyToMany,
    /// No two right rows have equal keys.
    ManyToOne,
    /// No two left rows have equal keys.
    OneToMany,
    /// No two rows of either side have equal keys.
    OneToOne,
}

/// Whether the two key columns of a pair become one column of the answer.
#[derive(Clone, Copy, PartialEq, Eq, Debug)]
pub enum JoinCoalesce {
    /// They do for Inner, Left and Right.
    JoinSpecific,
    /// They do for Inner, Left, Right and Full.
    CoalesceColumns,
    /// They never do.
    KeepColumns,
}

/// The order of the answer's rows.
#[derive(Clone, Copy, PartialEq, Eq, Debug)]
pub enum MaintainOrderJoin {
    None,
    Left,
    Right,
    LeftRight,
    RightLeft,
}

/// What is asked of a join, besides its tables and keys.
#[derive(Drop)]
pub struct JoinArgs {
    pub how: JoinType,
    pub validation: JoinValidation,
    /// What follows the name of a right column that a left column has too; `_right` where there is none.
    pub suffix: Option<PlSmallStr>,
    /// The offset and the length of the rows that are kept, after all are in order. A negative offset counts from the end.
    pub slice: Option<(i64, usize)>,
    /// Whether absent keys match absent keys, for all keys or for each by itself.
    pub join_nulls: JoinNulls,
    pub coalesce: JoinCoalesce,
    pub maintain_order: MaintainOrderJoin,
}

impl JoinArgs {
    /// A join of this kind with nothing else asked.
    pub fn new(how: JoinType) -> JoinArgs
        ensures { result ≡ record {
          how = how;
          validation = JoinValidation.ManyToMany;
          suffix = None;
          slice = None;
          join_nulls = JoinNulls.All false;
          coalesce = JoinCoalesce.JoinSpecific;
          maintain_order = MaintainOrderJoin.None;
        } }
    {
        JoinArgs {
            how,
            validation: JoinValidation::default(),
            suffix: None,
            slice: None,
            join_nulls: JoinNulls::All(false),
            coalesce: JoinCoalesce::default(),
            maintain_order: MaintainOrderJoin::default(),
        }
    }

    /// Whether the two key columns of a pair become one column of the answer.
    pub fn should_coalesce(&self) -> bool
        ensures { result ≡ coalesces self.now }
    {
        self.coalesce.coalesce(&self.how)
    }

    /// Equal arguments.
    pub fn copy(&self, alloc: Global) -> Result<JoinArgs, OutOfMemory>
        ensures { IfOk result (λ a. a ≡ self.now) }
    {
        Ok(JoinArgs {
            how: self.how,
            validation: self.validation,
            suffix: copy_suffix(&self.suffix, alloc)?,
            slice: self.slice,
            join_nulls: self.join_nulls.copy(alloc)?,
            coalesce: self.coalesce,
            maintain_order: self.maintain_order,
        })
    }
}

fn copy_suffix(
    suffix: &Option<PlSmallStr>,
    alloc: Global,
) -> Result<Option<PlSmallStr>, OutOfMemory>
    ensures { IfOk result (λ s. s ≡ suffix.now) }
{
    match suffix {
        None => Ok(None),
        Some(text) => Ok(Some(text.copy(alloc)?)),
    }
}

impl JoinValidation {
    /// Whether the left side is asked to have no two rows of equal keys.
    pub fn asks_left(&self) -> bool
        ensures { result ≡ asks_left self.now }
    {
        match self {
            JoinValidation::OneToMany | JoinValidation::OneToOne => true,
            JoinValidation::ManyToMany | JoinValidation::ManyToOne => false,
        }
    }

    /// Whether the right side is asked to have no two rows of equal keys.
    pub fn asks_right(&self) -> bool
        ensures { result ≡ asks_right self.now }
    {
        match self {
            JoinValidation::ManyToOne | JoinValidation::OneToOne => true,
            JoinValidation::ManyToMany | JoinValidation::OneToMany => false,
        }
    }

    /// Whether a side is asked to have no two rows of equal keys.
    pub fn needs_checks(&self) -> bool
        ensures { result ≡ asks_a_side self.now }
    {
        self.asks_left() || self.asks_right()
    }
}

impl JoinCoalesce {
    /// Whether the two key columns of a pair become one column of the answer to a join of this kind.
    pub fn coalesce(&self, how: &JoinType) -> bool
        ensures { result ≡ coalesce self.now how.now }
    {
        match how {
            JoinType::Inner | JoinType::Left | JoinType::Right => match self {
                JoinCoalesce::JoinSpecific | JoinCoalesce::CoalesceColumns => true,
                JoinCoalesce::KeepColumns => false,
            },
            JoinType::Full => match self {
                JoinCoalesce::CoalesceColumns => true,
                JoinCoalesce::JoinSpecific | JoinCoalesce::KeepColumns => false,
            },
            JoinType::Semi | JoinType::Anti => false,
        }
    }
}

impl MaintainOrderJoin {
    /// The same order, of the other side.
    pub fn flip(&self) -> MaintainOrderJoin
        ensures { result ≡ flip self.now }
    {
        match self {
            MaintainOrderJoin::None => MaintainOrderJoin::None,
            MaintainOrderJoin::Left => MaintainOrderJoin::Right,
            MaintainOrderJoin::Right => MaintainOrderJoin::Left,
            MaintainOrderJoin::LeftRight => MaintainOrderJoin::RightLeft,
            MaintainOrderJoin::RightLeft => MaintainOrderJoin::LeftRight,
        }
    }
}

impl Default for JoinValidation {
    ghost use Rattle.std.specs.Prelude.{◌≡◌};
    ghost use Rattle.tb_frame.specs.declared.args.JoinValidation.TheVariants.{ManyToMany};

    ghost is_default = { λ v. v ≡ ManyToMany };

    fn default() -> JoinValidation {
        JoinValidation::ManyToMany
    }
}

impl Default for JoinCoalesce {
    ghost use Rattle.std.specs.Prelude.{◌≡◌};
    ghost use Rattle.tb_frame.specs.declared.args.JoinCoalesce.TheVariants.{JoinSpecific};

    ghost is_default = { λ c. c ≡ JoinSpecific };

    fn default() -> JoinCoalesce {
        JoinCoalesce::JoinSpecific
    }
}

impl Default for MaintainOrderJoin {
    ghost use Rattle.std.specs.Prelude.{◌≡◌};
    ghost use Rattle.tb_frame.specs.declared.args.MaintainOrderJoin.TheVariants.{None};

    ghost is_default = { λ o. o ≡ None };

    fn default() -> MaintainOrderJoin {
        MaintainOrderJoin::None
    }
}

/// The order of the pairs of a join.
#[derive(Clone, Copy, PartialEq, Eq, Debug)]
pub enum Direction {
    Free,
    ByLeft,
    ByRight,
}
