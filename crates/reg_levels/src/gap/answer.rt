//! The gap of a register.
ghost use Rattle.std.specs.Prelude.{◌≡◌, ◌<◌, ◌≤◌, ◌-◌, ℕ, IfOk, length, max};
ghost use Rattle.history_model.specs.Lists.{In};
ghost use Rattle.history_model.specs.Operations.{IsHistory, value_of};
ghost use Rattle.history_model.specs.declared.operation.Operation.{Operation as AnOperation};
ghost use Rattle.reg_levels.specs.Clusters.Clean.{IsClean};
ghost use Rattle.reg_levels.specs.Clusters.Places.{AreFew, IsByCall};
ghost use Rattle.reg_levels.specs.Clusters.Table.{IsClusterTable, IsEnds};
ghost use Rattle.reg_levels.specs.Gap.Gaps.{IsAfter, IsConflictShown, IsGapOf};

use crate::clusters::{ClusterEnds, ClusterTable};
use crate::gap::extents::extents;
use crate::gap::widest::widest_collision;
use history_model::Operation;
use std::alloc::{AllocError, Global};

/// How old reads must be allowed to be for a register to be atomic, and two clusters that show it. Operations
/// are named by their places.
#[derive(Clone, Copy, Debug, PartialEq, Eq)]
pub struct Gap {
    /// The register would be atomic if reads might be so many events old, and not if all had to be younger.
    pub events: u32,
    /// The writes of the two clusters.
    pub writes: (u32, u32),
    /// The operation of the first cluster that replies first, and one of the second that must come after it.
    pub first: (u32, u32),
    /// The operation of the second cluster that replies first, and one of the first that must come after it.
    pub second: (u32, u32),
}

/// The gap of a clean register; none exactly if it is atomic.
///
/// It takes n log n steps for n operations.
///
/// # Errors
/// If memory runs out.
pub fn gap_of(
    alloc: Global,
    ops: &[Operation],
    table: &ClusterTable,
) -> Result<Option<Gap>, AllocError>
    requires history { IsHistory ops.now }
    requires by_call { IsByCall ops.now }
    requires few { AreFew ops.now }
    requires table { IsClusterTable ops.now table.now.clusters.items table.now.numbers.items }
    requires clean { IsClean ops.now }
    ensures { IfOk result (IsGapOf ops.now) }
{
    let extents = extents(alloc, ops, table)?;
    let Some(widest) = widest_collision(&extents, last_call(ops)) else {
        return Ok(None);
    };
    let first = &table.clusters[extents[widest.first].cluster as usize];
    let second = &table.clusters[extents[widest.second].cluster as usize];
    Ok(Some(shown(ops, widest.age, first, second)))
}

/// The last call of operations by call; 0 if there is none.
fn last_call(ops: &[Operation]) -> u32
    requires { IsByCall ops.now }
    ensures { (a : AnOperation) → In a ops.now → a.call ≤ result }
{
    match ops.last() {
        Some(op) => op.call,
        None => 0,
    }
}

/// The conflict of two clusters at an age.
fn shown(ops: &[Operation], age: u32, first: &ClusterEnds, second: &ClusterEnds) -> Gap
    requires first { first.now.write < length ops.now }
    requires second { second.now.write < length ops.now }
    ensures events { result.events ≡ age }
    ensures shown { (v w : AnOperation) → IsEnds ops.now v first.now → IsEnds ops.now w second.now
        → (value_of v ≡ value_of w → ⊥)
        → first.now.first_reply < max w.call (second.now.last_call - (age - 1))
        → second.now.first_reply < max v.call (first.now.last_call - (age - 1))
        → IsConflictShown age ops.now result }
{
    Gap {
        events: age,
        writes: (first.write, second.write),
        first: (first.first, after(ops, first.first_reply, second)),
        second: (second.first, after(ops, second.first_reply, first)),
    }
}

/// The operation of a cluster that must come after a reply: the write, or the one that is called last.
fn after(ops: &[Operation], reply: u32, ends: &ClusterEnds) -> u32
    requires { ends.now.write < length ops.now }
    ensures { (w : AnOperation) (age : ℕ) → IsEnds ops.now w ends.now
        → reply < max w.call (ends.now.last_call - (age - 1)) → IsAfter age ops.now reply w result }
{
    if reply < ops[ends.write as usize].call {
        ends.write
    } else {
        ends.last
    }
}
