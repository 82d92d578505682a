//! What holds of the definitions, as the contracts of empty functions.
ghost use Rattle.tb_agg.specs.Laws.{MaxIsGreatest, MinIsLeast};

/// Min is the least of the values that are present, Max the greatest, and Null is either where none is. No other value is.
pub fn extremes()
    ensures least { MinIsLeast }
    ensures greatest { MaxIsGreatest }
{}
