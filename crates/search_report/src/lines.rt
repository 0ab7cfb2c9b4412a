//! Operations and times by lines.
ghost use Rattle.std.specs.Prelude.{◌≡◌, ◌++◌, ◌∷◌, [], map, IfOk, OnOk};
ghost use Rattle.std.specs.List.{filter};
ghost use Rattle.register_search.specs.Timeline.{operations_at};
ghost use Rattle.search_report.specs.Meaning.{is_open_at, is_unanswered, line_at, lines_of};

use history_model::Operation;
use std::alloc::{AllocError, Global};

/// The line of the event at a time.
pub(crate) fn line_of_time(lines: &[u32], time: u32) -> u32
    ensures { result ≡ line_at lines.now time }
{
    lines
        .get(time.saturating_sub(2) as usize)
        .copied()
        .unwrap_or(0)
}

/// The lines of the events at some times.
pub(crate) fn lines_of_times(
    alloc: Global,
    lines: &[u32],
    times: &[u32],
) -> Result<Vec<u32>, AllocError>
    ensures { IfOk result (λ v. v.items ≡ map (line_at lines.now) times.now) }
{
    times
        .iter()
        .map(|time| line_of_time(lines, *time))
        .collect(alloc)
}

/// The lines of the calls of operations, which are given by their places.
pub(crate) fn lines_of_places(
    alloc: Global,
    ops: &[Operation],
    places: &[u32],
) -> Result<Vec<u32>, AllocError>
    ensures { IfOk result (λ v. v.items ≡ lines_of (operations_at ops.now places.now)) }
{
    let mut lines = Vec::new(alloc);
    for place in places {
        add_line(&mut lines, ops, *place)?;
    }
    Ok(lines)
}

/// The lines of the calls that are open at a time, in their order.
pub(crate) fn lines_of_open(
    alloc: Global,
    ops: &[Operation],
    time: u32,
) -> Result<Vec<u32>, AllocError>
    ensures { IfOk result (λ v. v.items ≡ lines_of (filter (is_open_at time) ops.now)) }
{
    ops.iter()
        .filter(|op| is_open(op, time))
        .map(|op| op.line)
        .collect(alloc)
}

/// Whether an operation was called before a time, and has no reply before it.
fn is_open(op: &Operation, time: u32) -> bool
    ensures { result ≡ is_open_at time op.now }
{
    op.call < time && is_awaited(op, time)
}

/// Whether no reply of an operation comes before a time.
fn is_awaited(op: &Operation, time: u32) -> bool
    ensures { result ≡ is_unanswered time op.now }
{
    !op.completed || time <= op.reply
}

/// Adds the line of the call of one more operation.
fn add_line(lines: &mut Vec<u32>, ops: &[Operation], place: u32) -> Result<(), AllocError>
    ensures { OnOk result (lines.new.items ≡ lines.old.items
        ++ lines_of (operations_at ops.now (place ∷ []))) }
{
    if let Some(op) = ops.get(place as usize) {
        lines.push(op.line)?;
    }
    Ok(())
}
