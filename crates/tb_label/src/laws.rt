//! What holds of the texts of values, as the contracts of empty functions.
ghost use Rattle.tb_label.specs.Label.{Texts};

/// Each kind of value has the text that the table of this crate says.
pub fn texts()
    ensures { Texts }
{}
