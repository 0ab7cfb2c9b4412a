//! Whether a register is atomic.
ghost use Rattle.std.specs.Prelude.{◌≡◌, ℕ, IfOk, IfSome, IsTrue};
ghost use Rattle.register_search.specs.Timeline.{AreCalls, AreTimes, IsTimeline};
ghost use Rattle.register_search.specs.Verdicts.{IsVerdict, RepliesAt};
ghost use Rattle.register_search.specs.DistinctValues.Hopeless.{IsHopelessAt};
ghost use Rattle.register_search.specs.DistinctValues.SomeOperations.{ArePlain};

use crate::distinct_values::distinct::has_distinct_values;
use crate::distinct_values::first::{FirstFault, first_fault};
use crate::distinct_values::part::{Shown, part_of};
use crate::distinct_values::zones::{ByZones, ask_zones};
use crate::{Bound, Bounds, Moment, Verdict, check_order, legal_before, reply_time, timeline};
use history_model::Operation;
use std::alloc::{AllocError, Global};

/// Steps that decide common histories, for each register and for each of its events.
const QUICK_STEPS: u64 = 1_000_000;

const QUICK_STEPS_PER_EVENT: u64 = 256;

/// Decides the operations of a register, `ops`, of which `events` are the calls and the replies. The bounds
/// are those of a register with a cas or a repeated value; any other is decided whatever they are.
pub fn decide(
    alloc: Global,
    ops: &[Operation],
    events: &[Moment],
    bounds: Bounds,
) -> Result<Verdict, AllocError>
    ensures { IfOk result (λ verdict. (r : ℕ) → IsTimeline r ops.now events.now
        → IsVerdict r ops.now verdict) }
{
    let is_distinct = has_distinct_values(alloc, ops)?;
    if is_distinct {
        soon_or_by_zones(alloc, ops, events, bounds)
    } else {
        crate::decide(alloc, ops, events, bounds)
    }
}

/// Decides by a short search, or else by zones.
fn soon_or_by_zones(
    alloc: Global,
    ops: &[Operation],
    events: &[Moment],
    bounds: Bounds,
) -> Result<Verdict, AllocError>
    requires { ArePlain ops.now }
    ensures { IfOk result (λ verdict. (r : ℕ) → IsTimeline r ops.now events.now
        → IsVerdict r ops.now verdict) }
{
    match crate::decide(alloc, ops, events, quick(events.len(), bounds))? {
        Verdict::Unknown(bound) => by_zones(alloc, ops, events, bound),
        verdict => Ok(verdict),
    }
}

/// Bounds within which common histories are decided, none above those given.
fn quick(events: usize, bounds: Bounds) -> Bounds {
    let most = (events as u64)
        .saturating_mul(QUICK_STEPS_PER_EVENT)
        .saturating_add(QUICK_STEPS);
    Bounds {
        steps: bounds.steps.min(most),
        ..bounds
    }
}

/// Decides by what zones find. The bound is the one that a search met, in case nothing can be made of that.
fn by_zones(
    alloc: Global,
    ops: &[Operation],
    events: &[Moment],
    bound: Bound,
) -> Result<Verdict, AllocError>
    requires { ArePlain ops.now }
    ensures { IfOk result (λ verdict. (r : ℕ) → IsTimeline r ops.now events.now
        → IsVerdict r ops.now verdict) }
{
    match ask_zones(alloc, ops, events)? {
        ByZones::Order(order) => checked(alloc, ops, order, bound),
        ByZones::Fault(shown) => at_first_fault(alloc, ops, events, shown, bound),
        ByZones::Nothing => Ok(Verdict::Unknown(bound)),
    }
}

/// An order that zones found is checked. One that isn't legal never comes, but no yes rests on that.
fn checked(
    alloc: Global,
    ops: &[Operation],
    order: Vec<u32>,
    bound: Bound,
) -> Result<Verdict, AllocError>
    ensures { IfOk result (λ verdict. (r : ℕ) → AreCalls r ops.now → IsVerdict r ops.now verdict) }
{
    match check_order(alloc, ops, &order)? {
        Some(points) => Ok(Verdict::Yes { order, points }),
        None => Ok(Verdict::Unknown(bound)),
    }
}

/// Zones found a fault. The one that comes first is looked for.
fn at_first_fault(
    alloc: Global,
    ops: &[Operation],
    events: &[Moment],
    shown: Shown,
    bound: Bound,
) -> Result<Verdict, AllocError>
    requires { ArePlain ops.now }
    ensures { IfOk result (λ verdict. (r : ℕ) → IsTimeline r ops.now events.now
        → IsVerdict r ops.now verdict) }
{
    match first_fault(alloc, ops, events, shown)? {
        Some(fault) => refuted(alloc, ops, fault, bound),
        None => Ok(Verdict::Unknown(bound)),
    }
}

/// A fault is searched for among the few operations that show it. If they have no order, all have none.
fn refuted(
    alloc: Global,
    ops: &[Operation],
    fault: FirstFault,
    bound: Bound,
) -> Result<Verdict, AllocError>
    requires { ArePlain ops.now }
    ensures { IfOk result (λ verdict. (r : ℕ) → AreCalls r ops.now → AreTimes ops.now
        → IsVerdict r ops.now verdict) }
{
    let part = part_of(alloc, ops, &fault.shown)?;
    let Some(time) = hopeless_at(alloc, &part)? else {
        return Ok(Verdict::Unknown(bound));
    };
    if !replies_then(ops, fault.reply, time) {
        return Ok(Verdict::Unknown(bound));
    }
    let before = legal_before(alloc, ops, fault.reply, fault.before)?;
    Ok(Verdict::No {
        reply: fault.reply,
        before,
    })
}

/// The time of a reply at which what is known has no order, if the search finds one.
fn hopeless_at(alloc: Global, ops: &[Operation]) -> Result<Option<u32>, AllocError>
    ensures { IfOk result (λ o. IfSome o (λ t. (r : ℕ)
        → AreCalls r ops.now → AreTimes ops.now → IsHopelessAt r ops.now t)) }
{
    let events = timeline(alloc, ops)?;
    match crate::decide(alloc, ops, &events, Bounds::DEFAULT)? {
        Verdict::No { reply, .. } => Ok(reply_time(ops, reply)),
        Verdict::Yes { .. } => Ok(None),
        Verdict::Unknown(_) => Ok(None),
    }
}

/// Whether the operation at a place replies at a time.
fn replies_then(ops: &[Operation], place: u32, time: u32) -> bool
    ensures { IsTrue result → RepliesAt ops.now place time }
{
    reply_time(ops, place) == Some(time)
}
