//! The writes that count, in an order.
ghost use Rattle.std.specs.Prelude.{Bool, IfOk, List, OnOk, Some, length, slice_get, ◌++◌, ◌≡◌, ◌<◌, ℕ};
ghost use Rattle.std.specs.List.{filter};
ghost use Rattle.causal_order.specs.CausalOrders.{AreReads, is_initial_at, is_listed_at, is_listed_op};
ghost use Rattle.causal_order.specs.SessionClocks.Clocks.{IsTableInRange};

use crate::session_clocks::SessionTable;
use history_model::Operation;
use std::alloc::{AllocError, Global};

/// The initial writes of an order, and then its other writes that are completed or that a completed read
/// gives.
pub(crate) fn writes_in(
    alloc: Global,
    ops: &[Operation],
    table: &SessionTable,
    order: &[u32],
) -> Result<Vec<u32>, AllocError>
    requires range { IsTableInRange table.now }
    requires places { length table.now.numbers.items ≡ length ops.now }
    requires within { (i p : ℕ) → slice_get order.now i ≡ Some p → p < length ops.now }
    ensures { IfOk result (λ places. (read : List Bool) × AreReads table.now (length ops.now) read
        × (places.items ≡ filter (is_initial_at ops.now) order.now
        ++ filter (is_listed_at ops.now read) order.now)) }
{
    let read = reads(alloc, table)?;
    let mut places = initial_in(alloc, ops, order)?;
    push_listed(&mut places, ops, &read, order)?;
    Ok(places)
}

/// For each operation whether it wrote the value of a completed read.
fn reads(alloc: Global, table: &SessionTable) -> Result<Vec<bool>, AllocError>
    requires range { IsTableInRange table.now }
    ensures { IfOk result (λ read. AreReads table.now (length table.now.sources.items) read.items) }
{
    let mut read = vec![in alloc; false; table.sources.len()]?;
    for place in 0..table.sources.len() {
        if let Some(source) = table.sources[place] {
            read[source as usize] = true;
        }
    }
    Ok(read)
}

/// The initial writes of an order.
fn initial_in(alloc: Global, ops: &[Operation], order: &[u32]) -> Result<Vec<u32>, AllocError>
    requires within { (i p : ℕ) → slice_get order.now i ≡ Some p → p < length ops.now }
    ensures { IfOk result (λ places. places.items ≡ filter (is_initial_at ops.now) order.now) }
{
    let mut places = Vec::new(alloc);
    for place in order {
        if ops[*place as usize].process.is_none() {
            places.push(*place)?;
        }
    }
    Ok(places)
}

/// Adds the writes of an order that somebody called and that are completed or read.
fn push_listed(
    places: &mut Vec<u32>,
    ops: &[Operation],
    read: &[bool],
    order: &[u32],
) -> Result<(), AllocError>
    requires size { length read.now ≡ length ops.now }
    requires within { (i p : ℕ) → slice_get order.now i ≡ Some p → p < length ops.now }
    ensures { OnOk result (places.new.items
        ≡ places.old.items ++ filter (is_listed_at ops.now read.now) order.now) }
{
    for place in order {
        if is_listed(&ops[*place as usize], read[*place as usize]) {
            places.push(*place)?;
        }
    }
    Ok(())
}

/// Whether somebody called the operation, and it is a write that is completed or read.
fn is_listed(op: &Operation, read: bool) -> bool
    ensures { result ≡ is_listed_op op.now read }
{
    op.process.is_some() && op.act.changes() && (op.completed || read)
}
