//! The operations of a register, with sets as wide as its open calls need.
ghost use Rattle.std.specs.Prelude.{[], IfOk};
ghost use Rattle.configurations.specs.Reached.{IsReached};
ghost use Rattle.configurations.specs.Runs.{AreInOrder};

use crate::bounds::{Bound, Bounds};
use crate::moment::Moment;
use crate::op::{NEVER, Op, looks};
use crate::reached::Reached;
use crate::stages::in_stages;
use crate::work::{Limits, Thrift};
use std::alloc::{AllocError, Global};

/// The most words of a set, so that 16,384 calls may wait to take effect at a time. More may be open: a look
/// that each configuration suits takes no slot.
const MAX_WIDTH: usize = 256;

/// How many words the sets by value may have for each configuration of the bound: as many as the widest
/// configuration has, so that they take no more memory than a list of configurations.
const WORDS_PER_CONFIGURATION: usize = 512;

/// Goes forward over the events of some operations, whose values are below `values`.
pub fn go_forward(
    alloc: Global,
    ops: &[Op],
    events: &[Moment],
    values: usize,
    bounds: Bounds,
) -> Result<Reached, AllocError>
    ensures { IfOk result (λ found. AreInOrder ops.now [] events.now → IsReached ops.now events.now found) }
{
    let words = words_for(most_open(ops, events)).min(MAX_WIDTH);
    let most = bounds
        .configurations
        .saturating_mul(WORDS_PER_CONFIGURATION);
    if words.saturating_mul(values) > most {
        return Ok(Reached::Stopped(Bound::Configurations));
    }
    let limits = Limits {
        values,
        steps: bounds.steps,
        configurations: bounds.configurations,
        beam: bounds.configurations,
        is_guided: false,
        thrift: Thrift::Little,
    };
    match words {
        1 => in_stages::<1>(alloc, ops, events, limits),
        2 => in_stages::<2>(alloc, ops, events, limits),
        4 => in_stages::<4>(alloc, ops, events, limits),
        8 => in_stages::<8>(alloc, ops, events, limits),
        16 => in_stages::<16>(alloc, ops, events, limits),
        32 => in_stages::<32>(alloc, ops, events, limits),
        64 => in_stages::<64>(alloc, ops, events, limits),
        128 => in_stages::<128>(alloc, ops, events, limits),
        256 => in_stages::<256>(alloc, ops, events, limits),
        _ => Ok(Reached::Stopped(Bound::Configurations)),
    }
}

/// How many words a set of so many slots has: a power of two.
pub(crate) fn words_for(slots: usize) -> usize {
    slots.div_ceil(64).next_power_of_two()
}

/// How many calls are open at most at a time; looks that never reply
/// don't count, since each value suits them.
fn most_open(ops: &[Op], events: &[Moment]) -> usize {
    let mut open: usize = 0;
    let mut most = 0;
    for event in events {
        match *event {
            Moment::Call(number) => {
                if takes_slot(ops, number) {
                    open = open.saturating_add(1);
                    most = open.max(most);
                }
            }
            Moment::Reply(_) => {
                open = open.saturating_sub(1);
            }
        }
    }
    most
}

/// Whether a call of this number may need a slot.
pub(crate) fn takes_slot(ops: &[Op], number: u32) -> bool {
    match ops.get(number as usize) {
        Some(op) => op.rank < NEVER || !looks(op),
        None => false,
    }
}
