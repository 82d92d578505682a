//! What holds of the lines of a table, as the contracts of empty functions.
ghost use Rattle.tb_layout.specs.Laws.{LinesFit, OneLineEach, ShownOrNamed};

/// No line of the table is wider than the terminal.
pub fn lines_fit()
    ensures { LinesFit }
{}

/// The names and the dashes have a line each, and each row has one.
pub fn one_line_each()
    ensures { OneLineEach }
{}

/// Each column is shown, or is named among those that are left out.
pub fn shown_or_named()
    ensures { ShownOrNamed }
{}
