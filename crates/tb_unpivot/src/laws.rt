//! What holds of the definitions, as the contracts of empty functions.
ghost use Rattle.tb_unpivot.specs.Folds.{Folds};

/// The common types of several columns, which are taken from the first on.
pub fn folds()
    ensures { Folds }
{}
