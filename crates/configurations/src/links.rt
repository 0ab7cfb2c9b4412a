//! Places that can be taken out of a list and put back, the last one out first.
use std::alloc::{AllocError, Global};

/// The place before the first one, which is also behind the last.
pub(crate) const HEAD: u32 = 0;

/// Places from 1 on, linked both ways. Nothing is said of them here.
#[derive(Drop)]
pub(crate) struct Links {
    next: Vec<u32>,
    before: Vec<u32>,
}

impl Links {
    /// Room for the places up to `last`; the list is empty.
    pub(crate) fn new(alloc: Global, last: usize) -> Result<Self, AllocError> {
        let room = last.saturating_add(1);
        Ok(Links {
            next: vec![in alloc; HEAD; room]?,
            before: vec![in alloc; HEAD; room]?,
        })
    }

    /// Puts a place after all others.
    pub(crate) fn push(&mut self, place: u32) {
        let last = get(&self.before, HEAD);
        set(&mut self.next, last, place);
        set(&mut self.before, place, last);
        set(&mut self.next, place, HEAD);
        set(&mut self.before, HEAD, place);
    }

    /// The place after this one.
    pub(crate) fn after(&self, place: u32) -> u32 {
        get(&self.next, place)
    }

    /// Takes a place out.
    pub(crate) fn take_out(&mut self, place: u32) {
        let before = get(&self.before, place);
        let next = get(&self.next, place);
        set(&mut self.next, before, next);
        set(&mut self.before, next, before);
    }

    /// Puts a place back, the last one that was taken out and isn't back.
    pub(crate) fn put_back(&mut self, place: u32) {
        let before = get(&self.before, place);
        let next = get(&self.next, place);
        set(&mut self.next, before, place);
        set(&mut self.before, next, place);
    }
}

/// The place that is noted for one.
fn get(places: &[u32], place: u32) -> u32 {
    match places.get(place as usize) {
        Some(noted) => *noted,
        None => HEAD,
    }
}

/// Notes a place for one.
fn set(places: &mut [u32], place: u32, noted: u32) {
    if let Some(slot) = places.get_mut(place as usize) {
        *slot = noted;
    }
}
