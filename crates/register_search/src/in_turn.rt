//! Registers whose operations take turns: each has replied before the next one is called. Theirs is one order
//! at most, so none is searched for.
ghost use Rattle.std.specs.Prelude.{ℕ, IfOk, IfSome};
ghost use Rattle.register_search.specs.Checked.{IsCheckedOrder};
ghost use Rattle.register_search.specs.Timeline.{AreCalls};

use crate::check::check_order;
use history_model::Operation;
use std::alloc::{AllocError, Global};

/// A legal order of the operations of a register without the initial write, by their places, and the point of
/// each.
#[derive(Debug, Drop)]
pub struct OrderInTurn {
    pub order: Vec<u32>,
    pub points: Vec<u32>,
}

/// The legal order of operations that take turns. `None` says nothing of them.
pub fn order_in_turn(alloc: Global, ops: &[Operation]) -> Result<Option<OrderInTurn>, AllocError>
    ensures { IfOk result (λ o. IfSome o (λ legal. (r : ℕ) → AreCalls r ops.now
        → IsCheckedOrder r ops.now legal.order.items legal.points.items)) }
{
    if !take_turns(ops) {
        return Ok(None);
    }
    let Ok(count) = u32::try_from(ops.len()) else {
        return Ok(None);
    };
    let order: Vec<u32> = (0..count).collect(alloc)?;
    match check_order(alloc, ops, &order)? {
        Some(points) => Ok(Some(OrderInTurn { order, points })),
        None => Ok(None),
    }
}

/// Whether each operation has replied before the next one is called.
fn take_turns(ops: &[Operation]) -> bool {
    let mut last = 0;
    for op in ops {
        if !op.completed || op.call < last {
            return false;
        }
        last = op.reply;
    }
    true
}
