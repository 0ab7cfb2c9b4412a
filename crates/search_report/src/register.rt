//! What is found of one register.
ghost use Rattle.std.specs.Prelude.{◌≡◌, ℕ, None, IfOk};
ghost use Rattle.history_model.specs.Timed.{AreTimedCalls};
ghost use Rattle.search_report.specs.Meaning.{IsAtomicity, IsFaultShown, is_unknown as is_unknown_of};
ghost use Rattle.search_report.specs.Meaning.{reached_bound};
ghost use Rattle.search_report.specs.Registers.{AreLinesBefore, AreOpenLines, IsFinding, IsReplyLine};
ghost use Rattle.register_search.specs.Checked.{IsCheckedOrder};
ghost use Rattle.register_search.specs.Unwritten.{IsFirstUnwritten};
ghost use Rattle.register_search.specs.Verdicts.{IsVerdict};

use crate::counts;
use crate::lines::{line_of_time, lines_of_open, lines_of_places, lines_of_times};
use history_model::Operation;
use register_search::distinct_values::decide;
use register_search::{Bound, Bounds, Verdict, first_unwritten, order_in_turn, timeline};
use report_text::search::{Atomicity, Fault, ReachedBound};
use std::alloc::{AllocError, Global};

/// What a report says of a register by the times of its operations: all but its name and its counts by words.
#[derive(Debug, Drop)]
pub(crate) struct Finding {
    pub(crate) atomicity: Atomicity,
    pub(crate) pending: usize,
}

/// Whether the search gave up.
pub(crate) fn is_unknown(atomicity: &Atomicity) -> bool
    ensures { result ≡ is_unknown_of atomicity.now }
{
    matches!(atomicity, Atomicity::Unknown(_))
}

/// The line of the reply to the operation at this place.
fn reply_line(lines: &[u32], ops: &[Operation], place: u32) -> u32
    ensures { IsReplyLine lines.now ops.now place result }
{
    match ops.get(place as usize).and_then(|op| op.reply_time()) {
        Some(time) => line_of_time(lines, time),
        None => 0,
    }
}

/// The lines of the calls that are open at the reply to the operation at this place.
fn open_lines(alloc: Global, ops: &[Operation], place: u32) -> Result<Vec<u32>, AllocError>
    ensures { IfOk result (λ v. AreOpenLines ops.now place v.items) }
{
    match ops.get(place as usize).and_then(|op| op.reply_time()) {
        Some(time) => lines_of_open(alloc, ops, time),
        None => Ok(Vec::new(alloc)),
    }
}

/// An order of what was known before a reply, by lines.
fn lines_before(
    alloc: Global,
    ops: &[Operation],
    before: Option<Vec<u32>>,
) -> Result<Option<Vec<u32>>, AllocError>
    ensures { IfOk result (AreLinesBefore ops.now before) }
{
    match before {
        Some(places) => Ok(Some(lines_of_places(alloc, ops, &places)?)),
        None => Ok(None),
    }
}

/// The bound at which a search gave up, as its report names it.
fn reached(bound: Bound) -> ReachedBound
    ensures { result ≡ reached_bound bound }
{
    match bound {
        Bound::Configurations => ReachedBound::Configurations,
        Bound::Steps => ReachedBound::Steps,
    }
}

/// A legal order and its points, by lines.
fn order_by_lines(
    alloc: Global,
    lines: &[u32],
    ops: &[Operation],
    order: &[u32],
    points: &[u32],
) -> Result<Atomicity, AllocError>
    ensures { IfOk result (λ atomicity. (r : ℕ) → AreTimedCalls r ops.now
        → IsCheckedOrder r ops.now order.now points.now → IsAtomicity lines.now r ops.now atomicity) }
{
    Ok(Atomicity::Yes {
        order: lines_of_places(alloc, ops, order)?,
        points: lines_of_times(alloc, lines, points)?,
    })
}

/// What the verdict of a search says, by lines.
fn atomicity_by_lines(
    alloc: Global,
    lines: &[u32],
    ops: &[Operation],
    verdict: Verdict,
) -> Result<Atomicity, AllocError>
    ensures { IfOk result (λ atomicity. (r : ℕ) → AreTimedCalls r ops.now → IsFirstUnwritten ops.now None
        → IsVerdict r ops.now verdict → IsAtomicity lines.now r ops.now atomicity) }
{
    match verdict {
        Verdict::Yes { order, points } => order_by_lines(alloc, lines, ops, &order, &points),
        Verdict::No { reply, before } => Ok(Atomicity::No(Fault::Search {
            asks: open_lines(alloc, ops, reply)?,
            before: lines_before(alloc, ops, before)?,
            reply: reply_line(lines, ops, reply),
        })),
        Verdict::Unknown(bound) => Ok(Atomicity::Unknown(reached(bound))),
    }
}

/// Whether a register without an unwritten value is atomic, as far as the bounds allow.
fn searched(
    alloc: Global,
    lines: &[u32],
    ops: &[Operation],
    bounds: Bounds,
) -> Result<Atomicity, AllocError>
    ensures { IfOk result (λ atomicity. (r : ℕ) → AreTimedCalls r ops.now → IsFirstUnwritten ops.now None
        → IsAtomicity lines.now r ops.now atomicity) }
{
    let moments = timeline(alloc, ops)?;
    let verdict = decide(alloc, ops, &moments, bounds)?;
    atomicity_by_lines(alloc, lines, ops, verdict)
}

/// Whether a register with these operations is atomic, as far as the
/// bounds allow: its events have these lines.
fn atomicity(
    alloc: Global,
    lines: &[u32],
    ops: &[Operation],
    bounds: Bounds,
) -> Result<Atomicity, AllocError>
    ensures { IfOk result (λ atomicity. (r : ℕ) → AreTimedCalls r ops.now
        → IsAtomicity lines.now r ops.now atomicity) }
{
    if let Some(legal) = order_in_turn(alloc, ops)? {
        return order_by_lines(alloc, lines, ops, &legal.order, &legal.points);
    }
    match first_unwritten(alloc, ops)? {
        Some(place) => Ok(Atomicity::No(Fault::Unwritten {
            call: ops[place].line,
        })),
        None => searched(alloc, lines, ops, bounds),
    }
}

/// What is found of a register with these operations, whose events have these lines.
pub(crate) fn finding_of(
    alloc: Global,
    lines: &[u32],
    ops: &[Operation],
    bounds: Bounds,
) -> Result<Finding, AllocError>
    ensures { IfOk result (IsFinding lines.now ops.now) }
{
    Ok(Finding {
        atomicity: atomicity(alloc, lines, ops, bounds)?,
        pending: counts::pending(ops),
    })
}
