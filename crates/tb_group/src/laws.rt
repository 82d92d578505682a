//! What holds of groupings, as the contracts of empty functions.
ghost use Rattle.tb_group.specs.Laws.{Counts, KeysAreRows};
ghost use Rattle.tb_group.specs.Worked.{Worked};

/// Worked groupings: tables, a trace, and refusals.
pub fn worked()
    ensures { Worked }
{}

/// The counts of all groups add up to the number of rows.
pub fn counts()
    ensures { Counts }
{}

/// Rows of columns of key types have the same key exactly where they are alike.
pub fn keys_are_rows()
    ensures { KeysAreRows }
{}
