//! Places in a buffer, in a list.
ghost use Rattle.std.specs.Prelude.{◌≡◌, ◌<◌, ◌++◌, ◌∷◌, [], IfOk, OnErr, OnOk, length, slice_index_or};
ghost use Rattle.tb_rowkey.specs.PlaceList.{listed_places};

use crate::even_places::EvenPlaces;
use std::alloc::Global;
use tb_store::OutOfMemory;

// The first place that has no room in 32 bits.
const WIDE: usize = 1 << 32;

/// A list of places, in 32 bits each as long as they fit.
#[derive(Drop)]
pub(crate) enum PlaceList {
    Narrow(Vec<u32>),
    Wide(Vec<usize>),
}

// The same places in 64 bits.
fn widened(alloc: Global, narrow: &[u32]) -> Result<Vec<usize>, OutOfMemory>
    ensures { IfOk result (λ v. v.items ≡ narrow.now) }
{
    let mut wide = Vec::with_capacity(alloc, narrow.len())?;
    for place in narrow {
        wide.push(*place as usize)?;
    }
    Ok(wide)
}

impl PlaceList {
    // No places, with room for this many.
    fn with_capacity(alloc: Global, places: usize) -> Result<PlaceList, OutOfMemory>
        ensures { IfOk result (λ p. listed_places p ≡ []) }
    {
        Ok(PlaceList::Narrow(Vec::with_capacity(alloc, places)?))
    }

    /// These places, with room for as many as they are to be.
    pub(crate) fn of_even(alloc: Global, even: &EvenPlaces) -> Result<PlaceList, OutOfMemory>
        ensures { IfOk result (λ l. listed_places l ≡ even.now) }
    {
        let mut list = PlaceList::with_capacity(alloc, even.room())?;
        for index in 0..even.len() {
            list.push(alloc, even.at(index))?;
        }
        Ok(list)
    }

    /// The number of places.
    pub(crate) fn len(&self) -> usize
        ensures { result ≡ length (listed_places self.now) }
    {
        match self {
            PlaceList::Narrow(places) => places.len(),
            PlaceList::Wide(places) => places.len(),
        }
    }

    /// A place.
    pub(crate) fn at(&self, index: usize) -> usize
        requires { index < length (listed_places self.now) }
        ensures { result ≡ slice_index_or (listed_places self.now) index 0 }
    {
        match self {
            PlaceList::Narrow(places) => places[index] as usize,
            PlaceList::Wide(places) => places[index],
        }
    }

    /// Appends a place. Where memory is wanting, nothing changes.
    pub(crate) fn push(&mut self, alloc: Global, place: usize) -> Result<(), OutOfMemory>
        ensures ok { OnOk result (listed_places self.new ≡ listed_places self.old ++ place ∷ []) }
        ensures err { OnErr result (listed_places self.new ≡ listed_places self.old) }
    {
        match self {
            PlaceList::Narrow(places) if place < WIDE => places.push(place as u32)?,
            PlaceList::Narrow(places) => {
                let mut wide = widened(alloc, places)?;
                wide.push(place)?;
                *self = PlaceList::Wide(wide);
            }
            PlaceList::Wide(places) => places.push(place)?,
        }
        Ok(())
    }
}
