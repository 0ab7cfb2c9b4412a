//! The greatest age at which two extents collide.
ghost use Rattle.std.specs.Prelude.{◌≡◌, ◌<◌, ◌+◌, MatchOption};
ghost use Rattle.reg_levels.specs.Gap.Extents.{NoneCollide, AreRising, IsWidest};

use crate::gap::extent::Extent;
use crate::gap::pass::collision;

/// Two extents that collide at an age, and none do one event later.
#[derive(Clone, Copy, Debug, PartialEq, Eq)]
pub(crate) struct Widest {
    pub(crate) age: u32,
    /// The place of the one that replies first.
    pub(crate) first: usize,
    pub(crate) second: usize,
}

/// The greatest age at which two extents collide, if any do; none collide at the age `end`.
pub(crate) fn widest_collision(extents: &[Extent], end: u32) -> Option<Widest>
    requires rising { AreRising extents.now }
    requires end { NoneCollide end extents.now }
    ensures { MatchOption result (NoneCollide 0 extents.now) (λ widest. IsWidest extents.now widest) }
{
    let mut pair = collision(extents, 0)?;
    let mut low = 0;
    let mut high = end;
    while low + 1 < high {
        let age = low + (high - low) / 2;
        if let Some(found) = collision(extents, age) {
            low = age;
            pair = found;
        } else {
            high = age;
        }
    }
    Some(Widest {
        age: low,
        first: pair.0,
        second: pair.1,
    })
}
