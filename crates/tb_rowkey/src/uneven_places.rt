//! Places that need a list.
ghost use Rattle.std.specs.Prelude.{◌≡◌, ◌<◌, ◌++◌, ◌∷◌, [], IfOk, OnOk, length, slice_index_or};
ghost use Rattle.tb_rowkey.specs.EvenPlaces.{AreEven};

use crate::even_places::EvenPlaces;
use crate::place_list::PlaceList;
use std::alloc::Global;
use std::marker::Model;
use tb_store::OutOfMemory;

/// A list of places that are not even.
#[derive(Drop)]
pub(crate) struct UnevenPlaces {
    list: PlaceList,
}

impl Model for UnevenPlaces {
    ghost use Rattle.std.specs.Prelude.{ℕ, List};
    ghost use Rattle.tb_rowkey.specs.EvenPlaces.{AreEven};
    ghost use Rattle.tb_rowkey.specs.PlaceList.{listed_places};

    ghost Value = { List ℕ };

    ghost view = { λ p. listed_places p.list };

    ghost invariant = { λ p. ¬ AreEven (listed_places p.list) };
}

impl UnevenPlaces {
    /// Even places, and one behind them that is not even with them.
    pub(crate) fn of(
        alloc: Global,
        even: &EvenPlaces,
        place: usize,
    ) -> Result<UnevenPlaces, OutOfMemory>
        requires { ¬ AreEven (even.now ++ place ∷ []) }
        ensures { IfOk result (λ p. p ≡ even.now ++ place ∷ []) }
    {
        let mut list = PlaceList::of_even(alloc, even)?;
        list.push(alloc, place)?;
        Ok(UnevenPlaces { list })
    }

    /// The number of places.
    pub(crate) fn len(&self) -> usize
        ensures { result ≡ length self.now }
    {
        self.list.len()
    }

    /// A place.
    pub(crate) fn at(&self, index: usize) -> usize
        requires { index < length self.now }
        ensures { result ≡ slice_index_or self.now index 0 }
    {
        self.list.at(index)
    }

    /// Appends a place.
    pub(crate) fn push(&mut self, alloc: Global, place: usize) -> Result<(), OutOfMemory>
        ensures { OnOk result (self.new ≡ self.old ++ place ∷ []) }
    {
        self.list.push(alloc, place)
    }
}
