//! What holds of the definitions, as the contracts of empty functions.
ghost use Rattle.tb_pivot.specs.Laws.{GroupsAreOf};

/// Rows in groups by a test have each the number of a group, as an aggregate asks.
pub fn groups_are_of()
    ensures { GroupsAreOf }
{}
