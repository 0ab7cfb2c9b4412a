//! Writes that no read gave after them.
ghost use Rattle.std.specs.Prelude.{◌↔◌, ◌<◌, length, IfOk, IsTrue};
ghost use Rattle.history_model.specs.Operations.{IsHistory};
ghost use Rattle.history_model.specs.declared.operation.Operation.{Operation as AnOperation};
ghost use Rattle.reg_levels.specs.Clusters.Places.{AreFew, IsAt, IsByCall};
ghost use Rattle.reg_levels.specs.Clusters.Table.{IsClusterTable};
ghost use Rattle.reg_levels.specs.Counts.Listing.{AreLostWrites};
ghost use Rattle.reg_levels.specs.Counts.Marks.{AreAges, IsRanked};
ghost use Rattle.reg_levels.specs.Counts.Staleness.{IsLost};

use crate::clusters::ClusterTable;
use crate::counts::marks::age_marks;
use crate::counts::ranking::Ranking;
use history_model::Operation;
use std::alloc::{AllocError, Global};

/// The places of the lost writes, by call: completed ones, after which some read was called, and all such
/// reads gave older values.
///
/// # Errors
/// If memory ran out.
pub fn lost_writes(
    alloc: Global,
    ops: &[Operation],
    table: &ClusterTable,
) -> Result<Vec<u32>, AllocError>
    requires history { IsHistory ops.now }
    requires by_call { IsByCall ops.now }
    requires few { AreFew ops.now }
    requires table { IsClusterTable ops.now table.now.clusters.items table.now.numbers.items }
    ensures { IfOk result (λ writes. AreLostWrites ops.now writes.items) }
{
    let marks = age_marks(alloc, ops, table)?;
    let ranking = Ranking::of(alloc, &marks)?;
    let mut writes = Vec::new(alloc);
    for place in 0..ops.len() {
        if is_lost(ops, place as u32, &ranking) {
            writes.push(place as u32)?;
        }
    }
    Ok(writes)
}

/// Whether the operation at a place is a lost write, by the completed reads.
fn is_lost(ops: &[Operation], place: u32, ranking: &Ranking) -> bool
    requires place { place < length ops.now }
    requires ages { AreAges ops.now ranking.now.marks.items }
    requires ranked { IsRanked ranking.now.marks.items ranking.now.least.items }
    ensures { (a : AnOperation) → IsAt ops.now place a → (IsTrue result ↔ IsLost ops.now a) }
{
    let op = &ops[place as usize];
    if !op.act.changes() || !op.completed {
        return false;
    }
    match ranking.first_above(op.reply) {
        Some(latest) => u32::MAX - latest.rank < op.call,
        None => false,
    }
}
