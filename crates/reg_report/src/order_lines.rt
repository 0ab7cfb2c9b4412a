//! The lines of an order and of its points.
ghost use Rattle.std.specs.Prelude.{◌≡◌, flat_map, IfOk};
ghost use Rattle.reg_report.specs.Lines.{HaveCalls, HavePoints, call_line, point_line, lines_by};

use history_model::{EvId, Oper};
use parallel::{OPERATIONS_PER_PART, map_parts};
use reg_arena::Arena;
use reg_zones::Placed;
use report_text::check::Lines;
use std::alloc::{AllocError, Global};
use std::thread::Threads;

/// The operations of an order by the lines of their calls, without the initial writes.
pub(crate) fn order_lines(
    alloc: Global,
    arena: &Arena,
    order: &[Placed],
) -> Result<Lines, AllocError>
    requires { HaveCalls arena.now order.now }
    ensures { IfOk result (λ lines. lines ≡ lines_by (call_line arena.now.events) order.now) }
{
    let mut lines = Vec::with_capacity(alloc, order.len())?;
    for placed in order {
        if let Oper::Called(id) = placed.oper {
            lines.push(arena.event(id).line)?;
        }
    }
    Ok(Lines::new(lines))
}

/// The same lines, found by several threads.
pub(crate) fn order_lines_in_parts(
    rt: &(impl Threads + Sync),
    alloc: Global,
    arena: &Arena,
    order: &[Placed],
) -> Result<Lines, AllocError>
    requires { HaveCalls arena.now order.now }
    ensures { IfOk result (λ lines. lines ≡ lines_by (call_line arena.now.events) order.now) }
{
    let parts = map_parts(
        rt,
        alloc,
        order,
        OPERATIONS_PER_PART,
        |part: &[Placed]| -> Result<Lines, AllocError>
            requires { HaveCalls arena.now part.now }
            ensures { IfOk result (λ lines. lines ≡ lines_by (call_line arena.entry.now.events) part.now) }
        { order_lines(alloc, arena, part) },
    )?;
    joined(alloc, &parts, order.len())
}

/// The lines of all parts, in order, with room for `count` of them.
pub(crate) fn joined(alloc: Global, parts: &[Lines], count: usize) -> Result<Lines, AllocError>
    ensures { IfOk result (λ lines. lines ≡ flat_map (λ part. part) parts.now) }
{
    let mut lines = Vec::with_capacity(alloc, count)?;
    for part in parts {
        lines.extend_from_slice(part.as_slice())?;
    }
    Ok(Lines::new(lines))
}

/// Their points, each by the line of the call that has that time.
pub(crate) fn point_lines(
    alloc: Global,
    arena: &Arena,
    order: &[Placed],
) -> Result<Lines, AllocError>
    requires { HavePoints arena.now order.now }
    ensures { IfOk result (λ lines. lines ≡ lines_by (point_line arena.now.events) order.now) }
{
    let mut lines = Vec::with_capacity(alloc, order.len())?;
    for placed in order {
        if let Oper::Called(_) = placed.oper {
            lines.push(arena.event(EvId::at(placed.point)).line)?;
        }
    }
    Ok(Lines::new(lines))
}
