//! The first reply with a fault. No contract speaks of it: what it names is to be searched for.
ghost use Rattle.std.specs.Prelude.{◌≤◌, length};

use crate::Moment;
use crate::distinct_values::part::Shown;
use crate::distinct_values::zones::{ByZones, ask_zones};
use history_model::Operation;
use std::alloc::{AllocError, Global};

/// The fault that comes first.
#[derive(Debug, Drop)]
pub(crate) struct FirstFault {
    /// The place of the operation whose reply makes it.
    pub(crate) reply: u32,
    pub(crate) shown: Shown,
    /// An order of what was known just before that reply.
    pub(crate) before: Vec<u32>,
}

/// So many first events have an order.
#[derive(Debug, Drop)]
struct Fine {
    count: usize,
    order: Vec<u32>,
}

/// The first fault of events that have this one, which is mostly the first itself: then what comes before its
/// last reply is fine.
pub(crate) fn first_fault(
    alloc: Global,
    ops: &[Operation],
    events: &[Moment],
    shown: Shown,
) -> Result<Option<FirstFault>, AllocError> {
    let events = up_to(ops, events, &shown);
    let Some((_, before)) = events.split_last() else {
        return Ok(None);
    };
    match ask_zones(alloc, ops, before)? {
        ByZones::Order(order) => Ok(replied(events, order, shown)),
        ByZones::Fault(shown) => {
            let fine = Fine {
                count: 0,
                order: Vec::new(alloc),
            };
            halved(alloc, ops, before, fine, shown)
        }
        ByZones::Nothing => Ok(None),
    }
}

/// The events up to the last reply of the operations that show a fault.
fn up_to<'a>(ops: &[Operation], events: &'a [Moment], shown: &Shown) -> &'a [Moment] {
    let mut count = 0;
    for (place, event) in events.iter().enumerate() {
        if is_reply_of(ops, *event, shown) {
            count = place + 1;
        }
    }
    &events[..count]
}

/// Whether an event is a reply of an operation that shows a fault.
fn is_reply_of(ops: &[Operation], event: Moment, shown: &Shown) -> bool {
    match event {
        Moment::Call(_) => false,
        Moment::Reply(place) => match ops.get(place as usize) {
            Some(op) => shown.calls.contains(&op.call),
            None => false,
        },
    }
}

/// The first fault of events that have this one, by halving what lies between those that are fine and those
/// that aren't: more events never mend a fault.
fn halved(
    alloc: Global,
    ops: &[Operation],
    events: &[Moment],
    fine: Fine,
    shown: Shown,
) -> Result<Option<FirstFault>, AllocError>
    requires { fine.count ≤ length events.now }
{
    let left = events.len() - fine.count;
    if left < 2 {
        return Ok(replied(events, fine.order, shown));
    }
    let middle = fine.count + left / 2;
    match ask_zones(alloc, ops, &events[..middle])? {
        ByZones::Order(order) => {
            let fine = Fine {
                count: middle,
                order,
            };
            halved(alloc, ops, events, fine, shown)
        }
        ByZones::Fault(shown) => halved(alloc, ops, &events[..middle], fine, shown),
        ByZones::Nothing => Ok(None),
    }
}

/// The fault that the last of the events makes, which is a reply.
fn replied(events: &[Moment], before: Vec<u32>, shown: Shown) -> Option<FirstFault> {
    match events.last() {
        Some(Moment::Reply(reply)) => Some(FirstFault {
            reply: *reply,
            shown,
            before,
        }),
        _ => None,
    }
}
