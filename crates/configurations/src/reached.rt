//! What came of going forward.
use crate::bounds::Bound;

/// A change that took effect, and the place of the reply just before which it did.
#[derive(Clone, Copy, Debug, PartialEq)]
pub struct Taken {
    pub number: u32,
    pub place: u32,
}

/// What came of going forward.
#[derive(Debug, PartialEq, Drop)]
pub enum Reached {
    /// No configuration is left after the reply at this place. `before` has the changes that took effect in
    /// one that was left just before it; none that can be relied on if operations were eased.
    Hopeless { place: usize, before: Vec<Taken> },
    /// The changes that took effect in a configuration that is left after all events.
    Left(Vec<Taken>),
    /// A bound was met.
    Stopped(Bound),
}
