//! What holds of common types, as the contracts of empty functions.
ghost use Rattle.tb_supertype.specs.Laws.{CastTyped, CastsOn, Symmetric};
ghost use Rattle.tb_supertype.specs.Lines.{Lines};

/// Each line of the table of common types.
pub fn lines()
    ensures { Lines }
{}

/// The order of two types doesn't matter.
pub fn symmetric()
    ensures { Symmetric }
{}

/// Values of two types are of the common type when they are cast to it. So are values that a cast brings to the first
/// type, cast from what they were, so that types can be joined one after another.
pub fn cast_typed()
    ensures typed { CastTyped }
    ensures on { CastsOn }
{}
