//! What was tried recently: each digest has one place, and a later one with the same place overwrites it.
use std::alloc::{AllocError, Global};

/// How many places there are for each event, and at most. Their number is a power of two.
const PLACES_PER_EVENT: usize = 4;

const MOST_PLACES: usize = 1 << 16;

/// Things by their digests. Nothing is said of them here.
#[derive(Drop)]
pub(crate) struct Tried {
    places: Vec<u64>,
    count: u64,
}

impl Tried {
    /// None, with places for so many events.
    pub(crate) fn new(alloc: Global, events: usize) -> Result<Self, AllocError> {
        let places = events.saturating_mul(PLACES_PER_EVENT).min(MOST_PLACES);
        Ok(Tried {
            places: vec![in alloc; 0; places.next_power_of_two()]?,
            count: 0,
        })
    }

    /// How many were put in.
    pub(crate) fn count(&self) -> u64 {
        self.count
    }

    /// Puts one in; false if it is there.
    pub(crate) fn insert(&mut self, digest: u64) -> bool {
        let number = digest & (self.places.len() as u64).saturating_sub(1);
        let Some(place) = self.places.get_mut(number as usize) else {
            return false;
        };
        if *place == digest {
            return false;
        }
        *place = digest;
        self.count = self.count.saturating_add(1);
        true
    }
}
