//! The merged order of a history whose registers are atomic.
ghost use Rattle.std.specs.Prelude.{◌≡◌, length, IfOk};
ghost use Rattle.std.specs.List.{flat_map};
ghost use Rattle.reg_report.specs.Merged.{AreGathered, AreOrders, IsMergedAnswer};

use crate::arena_laws::arena_laws;
use crate::by_point::by_point;
use crate::pieces::Order;
use reg_arena::Arena;
use reg_zones::Placed;
use std::alloc::{AllocError, Global};

/// The merged order of the canonical orders of all registers, which stand by number:
/// ascending by point, then by register, then as in the register's order, with the initial
/// writes. It is a legal order of the whole history.
pub fn merge(alloc: Global, arena: &Arena, orders: &[Order]) -> Result<Vec<Placed>, AllocError>
    requires { AreOrders arena.now orders.now }
    ensures { IfOk result (λ v. IsMergedAnswer arena.now v.items) }
{
    merge_gathered(alloc, arena, gathered(alloc, orders)?)
}

/// The merged order, from the operations of all orders, one order after another.
pub(crate) fn merge_gathered(
    alloc: Global,
    arena: &Arena,
    operations: Vec<Placed>,
) -> Result<Vec<Placed>, AllocError>
    requires { AreGathered arena.now (length arena.now.names) operations.items }
    ensures { IfOk result (λ v. IsMergedAnswer arena.now v.items) }
{
    arena_laws(arena);
    by_point(alloc, operations)
}

/// The operations of all orders, one order after another.
fn gathered(alloc: Global, orders: &[Order]) -> Result<Vec<Placed>, AllocError>
    ensures { IfOk result (λ v. v.items ≡ flat_map (λ order. order) orders.now) }
{
    let mut operations = Vec::new(alloc);
    for order in orders {
        operations.extend_from_slice(order.as_slice())?;
    }
    Ok(operations)
}
