//! What is true of requests and of trees that are read, as contracts of functions that do nothing.
ghost use Rattle.tb_plan_request.specs.Laws.{ByMembers, TwoForms};

/// A value is a tree by the trees that its members are, each of which is found by its name.
pub fn by_members()
    ensures { ByMembers }
{}

/// A request whose columns are written in runs is the one with these values in chunks.
pub fn two_forms()
    ensures { TwoForms }
{}
