//! What is true of pushed filters, as contracts of a function that does nothing.
ghost use Rattle.tb_node.specs.Laws.{SameMeaning, SameNames, SameSize};

/// A tree means with its filters pushed what it means without: its columns have the same names then, and there are as many
/// nodes.
pub fn pushing()
    ensures meaning { SameMeaning }
    ensures names { SameNames }
    ensures size { SameSize }
{}
