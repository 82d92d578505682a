//! What holds of the definitions, as the contracts of empty functions.
ghost use Rattle.tb_reshape.specs.Undo.{BothAccepted, Undone};

/// A table that is made long is made wide again: its columns come back. Neither call is refused where there is an index
/// column, all names are distinct together, and there are at most `MAX_ROWS` values.
pub fn undo()
    ensures undone { Undone }
    ensures accepted { BothAccepted }
{}
