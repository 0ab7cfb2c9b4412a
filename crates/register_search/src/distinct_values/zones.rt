//! What zones say of a register. No contract speaks of it: an order is to be checked, and a fault to be
//! searched for.
use crate::Moment;
use crate::distinct_values::lines::lines_of;
use crate::distinct_values::part::Shown;
use history_model::{Act, BuildError, EvId, Oper, Operation, RegId};
use history_text::Val;
use reg_arena::Arena;
use reg_zones::{Fault, Placed, order_or_fault};
use std::alloc::{AllocError, Global};

/// What zones found.
#[derive(Debug, Drop)]
pub(crate) enum ByZones {
    /// An order of the operations, by their places. The initial write, which comes first, is left out.
    Order(Vec<u32>),
    /// A fault.
    Fault(Shown),
    /// Nothing: these events aren't those of a history that zones take.
    Nothing,
}

/// What zones find in these calls and replies; operations without a reply among them are pending.
pub(crate) fn ask_zones(
    alloc: Global,
    ops: &[Operation],
    events: &[Moment],
) -> Result<ByZones, AllocError> {
    let Some(lines) = lines_of(alloc, ops, events)? else {
        return Ok(ByZones::Nothing);
    };
    match Arena::build(alloc, lines) {
        Ok(arena) => judged(alloc, ops, events, &arena),
        Err(BuildError::Refused(_)) => Ok(ByZones::Nothing),
        Err(BuildError::Memory) => Err(AllocError),
    }
}

/// What zones find in an arena whose events are these.
fn judged(
    alloc: Global,
    ops: &[Operation],
    events: &[Moment],
    arena: &Arena,
) -> Result<ByZones, AllocError> {
    if arena.register_count() == 0 {
        return Ok(ByZones::Nothing);
    }
    match order_or_fault(alloc, arena, RegId(0))? {
        Ok(order) => Ok(ByZones::Order(places_of(alloc, events, &order)?)),
        Err(fault) => faulty(alloc, ops, events, fault),
    }
}

/// The operations of an order by their places.
fn places_of(alloc: Global, events: &[Moment], order: &[Placed]) -> Result<Vec<u32>, AllocError> {
    order
        .iter()
        .filter_map(|placed| place_of(events, placed.oper))
        .collect(alloc)
}

/// The place of an operation; the initial write has none.
fn place_of(events: &[Moment], oper: Oper) -> Option<u32> {
    match oper {
        Oper::Initial(_) => None,
        Oper::Called(id) => called_at(events, id),
    }
}

/// The place of the operation that an event calls.
fn called_at(events: &[Moment], id: EvId) -> Option<u32> {
    match events.get(id.0 as usize) {
        Some(Moment::Call(place)) => Some(*place),
        _ => None,
    }
}

/// What shows a fault.
fn faulty(
    alloc: Global,
    ops: &[Operation],
    events: &[Moment],
    fault: Fault,
) -> Result<ByZones, AllocError> {
    let (writes, first, second) = match fault {
        Fault::Unwritten { read } => ((read, read), (read, read), (read, read)),
        Fault::Early { read, write } => ((read, write), (read, read), (read, read)),
        Fault::Zones {
            writes,
            first,
            second,
        } => (writes, first, second),
    };
    let mut calls = Vec::new(alloc);
    for oper in [first.0, first.1, second.0, second.1] {
        if let Some(op) = operation_of(ops, events, oper) {
            calls.push(op.call)?;
        }
    }
    Ok(ByZones::Fault(Shown {
        one: value_of(ops, events, writes.0),
        other: value_of(ops, events, writes.1),
        calls,
    }))
}

/// An operation by its name; the initial write isn't among them.
fn operation_of(ops: &[Operation], events: &[Moment], oper: Oper) -> Option<Operation> {
    let place = place_of(events, oper)?;
    ops.get(place as usize).copied()
}

/// The value that an operation gives or writes; the initial write writes null.
fn value_of(ops: &[Operation], events: &[Moment], oper: Oper) -> Val {
    match operation_of(ops, events, oper) {
        Some(op) => match op.act {
            Act::Read(Some(given)) => given,
            Act::Write(written) => written,
            _ => Val::Null,
        },
        None => Val::Null,
    }
}
