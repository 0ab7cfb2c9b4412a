//! Whether an order is legal, by the definitions.
ghost use Rattle.std.specs.Prelude.{◌≡◌, ◌<◌, true, false, slice_get, IfOk, IfSome, IsTrue, Some, ℕ};
ghost use Rattle.history_text.specs.declared.event.Val.TheVariants.{Null};
ghost use Rattle.history_model.specs.declared.operation.Operation.{Operation as AnOperation};
ghost use Rattle.history_model.specs.InTurn.{Meets};
ghost use Rattle.history_model.specs.Operations.{IsCompleted};
ghost use Rattle.register_search.specs.Checked.{ArePoints, IsCheckedOrder, IsMarked};
ghost use Rattle.register_search.specs.Timeline.{AreCalls, operations_at};

use history_model::Operation;
use history_text::Val;
use std::alloc::{AllocError, Global};

/// The points of an order, only if it is a legal order of the operations of a register with the initial write
/// before them. The order has the operations by their places, the points are times.
pub fn check_order(
    alloc: Global,
    ops: &[Operation],
    order: &[u32],
) -> Result<Option<Vec<u32>>, AllocError>
    ensures { IfOk result (λ o. IfSome o (λ points. (r : ℕ) → AreCalls r ops.now
        → IsCheckedOrder r ops.now order.now points.items)) }
{
    match marked(alloc, ops.len(), order)? {
        Some(marks) => {
            if has_completed(ops, &marks) && meets(ops, order) {
                points_of(alloc, ops, order)
            } else {
                Ok(None)
            }
        }
        None => Ok(None),
    }
}

/// For each place whether the order has it; none if the order has a place twice or one that isn't there.
fn marked(alloc: Global, count: usize, order: &[u32]) -> Result<Option<Vec<bool>>, AllocError>
    ensures { IfOk result (λ o. IfSome o (λ marks. IsMarked count order.now marks.items)) }
{
    let mut marks = vec![in alloc; false; count]?;
    for number in order {
        let place = *number as usize;
        if place >= marks.len() {
            return Ok(None);
        }
        if marks[place] {
            return Ok(None);
        }
        marks[place] = true;
    }
    Ok(Some(marks))
}

/// Whether each completed operation is marked.
fn has_completed(ops: &[Operation], marks: &[bool]) -> bool
    ensures { IsTrue result → (k : ℕ) (a : AnOperation) → slice_get ops.now k ≡ Some a → IsCompleted a
        → slice_get marks.now k ≡ Some true }
{
    for (place, op) in ops.iter().enumerate() {
        if is_left_out(op, marks, place) {
            return false;
        }
    }
    true
}

/// Whether the operation at this place is completed and isn't marked.
fn is_left_out(op: &Operation, marks: &[bool], place: usize) -> bool
    ensures { result ≡ false → IsCompleted op.now → slice_get marks.now place ≡ Some true }
{
    if op.completed {
        !is_marked(marks, place)
    } else {
        false
    }
}

/// Whether there is a mark at this place.
fn is_marked(marks: &[bool], place: usize) -> bool
    ensures { IsTrue result → slice_get marks.now place ≡ Some true }
{
    marks.get(place).copied().unwrap_or(false)
}

/// Whether the operations take effect in this order, from null on, each at a value that suits it.
fn meets(ops: &[Operation], order: &[u32]) -> bool
    ensures { IsTrue result → Meets Null (operations_at ops.now order.now) }
{
    let mut value = Val::Null;
    for number in order {
        let Some(op) = ops.get(*number as usize) else {
            return false;
        };
        if !op.act.suits(value) {
            return false;
        }
        value = op.act.left(value);
    }
    true
}

/// The points of the operations in this order, if each comes before the operation's reply.
fn points_of(
    alloc: Global,
    ops: &[Operation],
    order: &[u32],
) -> Result<Option<Vec<u32>>, AllocError>
    ensures { IfOk result
        (λ o. IfSome o (λ points. ArePoints (operations_at ops.now order.now) points.items)) }
{
    let mut points = Vec::new(alloc);
    let mut last: u32 = 0;
    for number in order {
        let Some(op) = ops.get(*number as usize) else {
            return Ok(None);
        };
        last = last.max(op.call);
        if is_over(op, last) {
            return Ok(None);
        }
        points.push(last)?;
    }
    Ok(Some(points))
}

/// Whether the operation has replied by this time.
fn is_over(op: &Operation, time: u32) -> bool
    ensures { result ≡ false → IsCompleted op.now → time < op.now.reply }
{
    op.completed && op.reply <= time
}
