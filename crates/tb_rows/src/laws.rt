//! What holds of the definitions, as the contracts of empty functions.
ghost use Rattle.tb_rows.specs.Laws.{OrderedOnce, PlacesAreRows};

/// A list put in an order is sorted, what ties stands in it as before, and no other list is so.
pub fn ordered_once<T>()
    ensures { OrderedOnce T }
{}

/// The places of a list in groups are the list's rows in groups.
pub fn places_are_rows()
    ensures { PlacesAreRows }
{}
