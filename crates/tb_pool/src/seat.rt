//! A seat as contracts see it.

use std::collections::LinkedList;

/// The numbers that a seat has drawn, and its weight. No value of this type is made.
pub struct Seat {
    pub drawn: LinkedList<u64>,
    pub weight: u64,
}
