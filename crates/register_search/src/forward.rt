//! The search goes forward over all events, and what it finds is said of the operations.
ghost use Rattle.std.specs.Prelude.{[], suc, take, IfOk, ℕ};
ghost use Rattle.history_text.specs.declared.event.Val.TheVariants.{Null};
ghost use Rattle.register_search.specs.Runs.{Alive};
ghost use Rattle.register_search.specs.Timeline.{IsTimeline};
ghost use Rattle.register_search.specs.Verdicts.{IsFound};

use crate::numbered::by_numbers;
use crate::order::order_of;
use configurations::{Bound, Bounds, Moment, Reached, Taken, go_forward};
use history_model::Operation;
use std::alloc::{AllocError, Global};

/// What a search found.
#[derive(Drop)]
pub(crate) enum Found {
    /// No configuration was left after the reply of the operation at this place. `before` is an order of
    /// what was known just before it, made from the changes in a configuration that was left; it is to be
    /// checked.
    Hopeless { reply: u32, before: Vec<u32> },
    /// An order, made from the changes in a configuration that is left. It is to be checked.
    Order(Vec<u32>),
    /// The search met a bound.
    Stopped(Bound),
}

/// Goes forward over all events.
pub(crate) fn forward(
    alloc: Global,
    ops: &[Operation],
    events: &[Moment],
    bounds: Bounds,
) -> Result<Found, AllocError>
    ensures { IfOk result (λ found. (r : ℕ) → IsTimeline r ops.now events.now → IsFound r ops.now found) }
{
    let numbered = by_numbers(alloc, ops)?;
    match go_forward(alloc, &numbered.ops, events, numbered.values, bounds)? {
        Reached::Hopeless { place, before } => hopeless(alloc, ops, events, place, &before),
        Reached::Left(changes) => Ok(Found::Order(order_of(alloc, ops, events, &changes)?)),
        Reached::Stopped(bound) => Ok(Found::Stopped(bound)),
    }
}

/// No configuration was left after the event at a place. That is a reply, since a call leaves them all.
fn hopeless(
    alloc: Global,
    ops: &[Operation],
    events: &[Moment],
    place: usize,
    before: &[Taken],
) -> Result<Found, AllocError>
    ensures { IfOk result (λ found. (r : ℕ) → IsTimeline r ops.now events.now
        → (Alive ops.now Null [] (take (suc place) events.now) → ⊥) → IsFound r ops.now found) }
{
    match events.get(place) {
        Some(Moment::Reply(reply)) => Ok(Found::Hopeless {
            reply: *reply,
            before: order_of(alloc, ops, &events[..place], before)?,
        }),
        _ => Ok(Found::Stopped(Bound::Steps)),
    }
}
