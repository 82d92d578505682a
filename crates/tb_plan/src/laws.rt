//! What is true of plans, as contracts of functions that do nothing.
ghost use Rattle.tb_plan.specs.Laws.{BeforeJoin, NoneFree, OutcomeMeans, SameTable, TheAnswer};
ghost use Rattle.tb_node.specs.Laws.{SameNames, SameSize};

/// A join by names that isn't refused, and whose order is fixed, has one answer.
pub fn the_answer()
    ensures { TheAnswer }
{}

/// In a plan no order is free.
pub fn none_free()
    ensures { NoneFree }
{}

/// A tree answers a table exactly where it means it: the named table, the rows that pass, or an answer to a join that isn't
/// refused. The numbers of nodes stand in faults alone.
pub fn outcome_means()
    ensures { OutcomeMeans }
{}

/// Where a tree answers a table, it answers the same table with its filters pushed; its columns have the same names then
/// in any case, and there are as many nodes.
pub fn push()
    ensures table { SameTable }
    ensures names { SameNames }
    ensures size { SameSize }
{}

/// A filter on a left column may stand before a Left join that no validation checks and no slice cuts.
pub fn before_join()
    ensures { BeforeJoin }
{}
