//! Places that need no list.
ghost use Rattle.std.specs.Prelude.{◌≡◌, ◌↔◌, ◌<◌, ◌≤◌, ◌++◌, ◌∷◌, [], IsTrue, if◌then◌else◌, length, slice_index_or};
ghost use Rattle.tb_rowkey.specs.EvenPlaces.{AreEven};

use std::marker::Model;
use tb_store::MAX_ROWS;

/// Places from 0 on, each as far behind the one before as any other is.
#[derive(Drop)]
pub(crate) struct EvenPlaces {
    width: usize,
    // How many places stand behind the first.
    gaps: usize,
    // For how many places a list is to have room, should one be needed.
    room: usize,
}

impl Model for EvenPlaces {
    ghost use Rattle.std.specs.Prelude.{ℕ, List, ◌+◌};
    ghost use Rattle.tb_rowkey.specs.EvenPlaces.{even_places, IsWidth};

    ghost Value = { List ℕ };

    ghost view = { λ p. even_places p.width (p.gaps + 1) };

    ghost invariant = { λ p. IsWidth p.width p.gaps };
}

impl EvenPlaces {
    /// The place 0 alone.
    pub(crate) fn from_zero(room: usize) -> EvenPlaces
        ensures { result ≡ 0 ∷ [] }
    {
        EvenPlaces {
            width: 0,
            gaps: 0,
            room,
        }
    }

    /// For how many places a list is to have room. No contract rests on it.
    pub(crate) fn room(&self) -> usize {
        self.room
    }

    /// The number of places.
    pub(crate) fn len(&self) -> usize
        ensures { result ≡ length self.now }
    {
        self.gaps + 1
    }

    /// A place.
    pub(crate) fn at(&self, index: usize) -> usize
        requires { index < length self.now }
        ensures { result ≡ slice_index_or self.now index 0 }
    {
        index * self.width
    }

    /// Appends a place where all are even with it, and else says no.
    pub(crate) fn push(&mut self, place: usize) -> bool
        requires { length self.old ≤ MAX_ROWS }
        ensures exact { IsTrue result ↔ AreEven (self.old ++ place ∷ []) }
        ensures places { self.new ≡ (if result then self.old ++ place ∷ [] else self.old) }
    {
        if self.gaps == 0 {
            self.width = place;
            self.gaps = 1;
            return true;
        }
        let last = self.gaps * self.width;
        match place.checked_sub(last) {
            Some(gap) if gap == self.width => {
                self.gaps += 1;
                true
            }
            _ => false,
        }
    }
}
