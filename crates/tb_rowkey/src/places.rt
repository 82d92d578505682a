//! Places in a buffer.
ghost use Rattle.std.specs.Prelude.{◌≡◌, ◌<◌, ◌≤◌, ◌++◌, ◌∷◌, [], OnOk, length, slice_index_or};
ghost use Rattle.tb_rowkey.specs.Places.{places_in};

use crate::even_places::EvenPlaces;
use crate::uneven_places::UnevenPlaces;
use std::alloc::Global;
use tb_store::{MAX_ROWS, OutOfMemory};

/// Places in a buffer, listed only where not all are of one width.
#[derive(Drop)]
pub(crate) enum Places {
    Even(EvenPlaces),
    Uneven(UnevenPlaces),
}

impl Places {
    /// The place 0 alone. A list, should one be needed, has room for this many.
    pub(crate) fn from_zero(room: usize) -> Places
        ensures { places_in result ≡ 0 ∷ [] }
    {
        Places::Even(EvenPlaces::from_zero(room))
    }

    /// The number of places.
    pub(crate) fn len(&self) -> usize
        ensures { result ≡ length (places_in self.now) }
    {
        match self {
            Places::Even(even) => even.len(),
            Places::Uneven(uneven) => uneven.len(),
        }
    }

    /// A place.
    pub(crate) fn at(&self, index: usize) -> usize
        requires { index < length (places_in self.now) }
        ensures { result ≡ slice_index_or (places_in self.now) index 0 }
    {
        match self {
            Places::Even(even) => even.at(index),
            Places::Uneven(uneven) => uneven.at(index),
        }
    }

    /// Appends a place. The first that is not even with the others has all listed.
    pub(crate) fn push(&mut self, alloc: Global, place: usize) -> Result<(), OutOfMemory>
        requires { length (places_in self.old) ≤ MAX_ROWS }
        ensures { OnOk result (places_in self.new ≡ places_in self.old ++ place ∷ []) }
    {
        match self {
            Places::Even(even) => {
                if !even.push(place) {
                    *self = Places::Uneven(UnevenPlaces::of(alloc, even, place)?);
                }
            }
            Places::Uneven(uneven) => uneven.push(alloc, place)?,
        }
        Ok(())
    }
}
