//! One pass over the extents by first replies, which finds two that collide at an age.
ghost use Rattle.std.specs.Prelude.{◌≡◌, ◌<◌, ◌≤◌, ◌+◌, length, MatchOption};
ghost use Rattle.reg_levels.specs.Gap.Extents.{ArePassed, AreRising, IsCollision, IsFirstLeft, NoneCollide};

use crate::gap::extent::Extent;

/// The places of two extents that collide if reads may be less than `age` events old, if any two do.
///
/// Extents whose threshold lies below a first reply collide with nothing from there on. Of those that are
/// left before a place the first has the least first reply, so the one at that place collides with it or
/// with none.
pub(crate) fn collision(extents: &[Extent], age: u32) -> Option<(usize, usize)>
    requires { AreRising extents.now }
    ensures { MatchOption result (NoneCollide age extents.now)
        (λ pair. IsCollision age extents.now pair.0 pair.1) }
{
    let mut first = 0;
    for place in 0..extents.len() {
        first = first_left(extents, age, first, place);
        if first < place && extents[first].first_reply < extents[place].threshold(age) {
            return Some((first, place));
        }
    }
    None
}

/// The first extent from `first` on whose threshold lies above the first reply of the one at `place`, or
/// `place` if there is none before it.
fn first_left(extents: &[Extent], age: u32, mut first: usize, place: usize) -> usize
    requires rising { AreRising extents.now }
    requires order { first ≤ place }
    requires within { place < length extents.now }
    requires passed { ArePassed age extents.now first place }
    ensures order { result ≤ place }
    ensures passed { ArePassed age extents.now result place }
    ensures left { IsFirstLeft age extents.now result place }
{
    let reply = extents[place].first_reply;
    while first < place && extents[first].threshold(age) <= reply {
        first += 1;
    }
    first
}
