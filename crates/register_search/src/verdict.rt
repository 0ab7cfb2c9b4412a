//! Whether a register is atomic, where the bounds allow an answer.
ghost use Rattle.std.specs.Prelude.{IfOk, IfSome, MatchOption, ℕ};
ghost use Rattle.register_search.specs.Timeline.{AreCalls, IsTimeline};
ghost use Rattle.register_search.specs.Verdicts.{IsBefore, IsRefuted, IsVerdict, RepliesAt};

use crate::check::check_order;
use crate::cut::cut;
use crate::forward::{Found, forward};
use configurations::{Bound, Bounds, Moment};
use history_model::Operation;
use std::alloc::{AllocError, Global};

/// Whether a register is atomic.
#[derive(Debug, PartialEq, Drop)]
pub enum Verdict {
    /// It is: a legal order, by the places of the operations, and the point of each. The
    /// initial write, which comes first, is left out.
    Yes {
        order: Vec<u32>,
        points: Vec<u32>,
    },
    /// It isn't, nor is what was known at the reply of the operation at the place `reply`. `before` is a
    /// legal order of what was known just before that reply, again without the initial write; none if
    /// the order that the search had isn't legal.
    No {
        reply: u32,
        before: Option<Vec<u32>>,
    },
    /// The search gave up.
    Unknown(Bound),
}

/// Decides the operations of a register, `ops`, of which `events` are the calls and the replies.
pub fn decide(
    alloc: Global,
    ops: &[Operation],
    events: &[Moment],
    bounds: Bounds,
) -> Result<Verdict, AllocError>
    ensures { IfOk result (λ verdict. (r : ℕ) → IsTimeline r ops.now events.now
        → IsVerdict r ops.now verdict) }
{
    match forward(alloc, ops, events, bounds)? {
        Found::Hopeless { reply, before } => refuted(alloc, ops, reply, before),
        Found::Order(order) => checked(alloc, ops, order),
        Found::Stopped(bound) => Ok(Verdict::Unknown(bound)),
    }
}

/// An order that a search found is checked. One that isn't legal never comes, but no yes rests on that.
fn checked(alloc: Global, ops: &[Operation], order: Vec<u32>) -> Result<Verdict, AllocError>
    ensures { IfOk result (λ verdict. (r : ℕ) → AreCalls r ops.now → IsVerdict r ops.now verdict) }
{
    match check_order(alloc, ops, &order)? {
        Some(points) => Ok(Verdict::Yes { order, points }),
        None => Ok(Verdict::Unknown(Bound::Steps)),
    }
}

/// A reply is hopeless. The order before it is checked, and left out
/// if it isn't legal: no answer rests on it.
fn refuted(
    alloc: Global,
    ops: &[Operation],
    reply: u32,
    before: Vec<u32>,
) -> Result<Verdict, AllocError>
    ensures { IfOk result (λ verdict. (r : ℕ) → AreCalls r ops.now → IsRefuted r ops.now reply
        → IsVerdict r ops.now verdict) }
{
    let before = legal_before(alloc, ops, reply, before)?;
    Ok(Verdict::No { reply, before })
}

/// The order, if it is a legal order of what was known just before the reply of the operation at a place. It
/// has the operations by their places, whoever made it, without the initial write.
pub fn legal_before(
    alloc: Global,
    ops: &[Operation],
    reply: u32,
    order: Vec<u32>,
) -> Result<Option<Vec<u32>>, AllocError>
    ensures { IfOk result (λ o. IfSome o (λ order. (r : ℕ) → AreCalls r ops.now
        → IsBefore r ops.now reply order.items)) }
{
    let Some(time) = reply_time(ops, reply) else {
        return Ok(None);
    };
    let known = cut(alloc, ops, time.saturating_sub(1))?;
    match check_order(alloc, &known, &order)? {
        Some(_) => Ok(Some(order)),
        None => Ok(None),
    }
}

/// The time of the reply of the operation at a place; none if there is no operation or no reply.
pub fn reply_time(ops: &[Operation], place: u32) -> Option<u32>
    ensures { MatchOption result ((t : ℕ) → RepliesAt ops.now place t → ⊥) (λ t. RepliesAt ops.now place t) }
{
    ops.get(place as usize)?.reply_time()
}
