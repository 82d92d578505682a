//! What is true of tests, as contracts of functions that do nothing.
ghost use Rattle.tb_filter.specs.Laws.{KeyValues};

/// A value is a key value of a type exactly where it is there, is of the type, and the type has keys.
pub fn key_values()
    ensures { KeyValues }
{}
