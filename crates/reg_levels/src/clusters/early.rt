//! Reads that precede the write of their value.
ghost use Rattle.std.specs.Prelude.{◌≡◌, ◌<◌, length, MatchOption};
ghost use Rattle.history_model.specs.Operations.{IsHistory};
ghost use Rattle.history_model.specs.declared.operation.Operation.{Operation as AnOperation};
ghost use Rattle.reg_zones.specs.Faults.{IsEarly, IsFirstEarly};
ghost use Rattle.reg_levels.specs.Clusters.Clean.{IsClean};
ghost use Rattle.reg_levels.specs.Clusters.Places.{AreFew, IsAt, IsByCall};
ghost use Rattle.reg_levels.specs.Clusters.Table.{IsClusterTable};

use crate::clusters::table::ClusterTable;
use history_model::Operation;

/// The read called first of those that precede the write of their value, with that write, by their places.
/// If there is none, the register is clean.
pub fn first_early(ops: &[Operation], table: &ClusterTable) -> Option<(u32, u32)>
    requires history { IsHistory ops.now }
    requires by_call { IsByCall ops.now }
    requires few { AreFew ops.now }
    requires table { IsClusterTable ops.now table.now.clusters.items table.now.numbers.items }
    ensures { MatchOption result (IsClean ops.now) (λ early. (r : AnOperation) × (w : AnOperation)
        × IsAt ops.now early.0 r × IsAt ops.now early.1 w × IsFirstEarly ops.now r w) }
{
    for place in 0..ops.len() {
        if let Some(write) = early_write(ops, table, place as u32) {
            return Some((place as u32, write));
        }
    }
    None
}

/// The place of the write of the value of the read at a place, if that read precedes it.
fn early_write(ops: &[Operation], table: &ClusterTable, place: u32) -> Option<u32>
    requires history { IsHistory ops.now }
    requires place { place < length ops.now }
    requires table { IsClusterTable ops.now table.now.clusters.items table.now.numbers.items }
    ensures { (r : AnOperation) → IsAt ops.now place r
        → MatchOption result ((w : AnOperation) → IsEarly ops.now r w → ⊥)
        (λ write. (w : AnOperation) × IsAt ops.now write w × IsEarly ops.now r w) }
{
    let read = ops[place as usize];
    let ends = table.ends_at(place)?;
    let write = ops[ends.write as usize];
    if read.reply < write.call {
        Some(ends.write)
    } else {
        None
    }
}
