//! Reads that must come before the write of their value.
ghost use Rattle.std.specs.Prelude.{IfNone, IfSome, length, ◌<◌};
ghost use Rattle.history_model.specs.Operations.{IsHistory};
ghost use Rattle.history_model.specs.declared.operation.Operation.{Operation as AnOperation};
ghost use Rattle.level_laws.specs.Leads.{IsCleanFor, IsTooEarly};
ghost use Rattle.reg_levels.specs.Clusters.Places.{AreFew, IsAt};
ghost use Rattle.reg_levels.specs.Clusters.Table.{IsClusterTable};
ghost use Rattle.reg_levels.specs.Levels.{IsOfSessions};

use crate::asked::is_too_early;
use crate::clusters::ClusterTable;
use history_model::{Guarantee, Operation};

/// The first read by its call, with the write of its value, if one must come before that.
pub(crate) fn first_too_early(
    ops: &[Operation],
    table: &ClusterTable,
    guarantee: Guarantee,
) -> Option<(u32, u32)>
    requires history { IsHistory ops.now }
    requires few { AreFew ops.now }
    requires table { IsClusterTable ops.now table.now.clusters.items table.now.numbers.items }
    requires sessions { IsOfSessions guarantee }
    ensures none { IfNone result (IsCleanFor guarantee ops.now) }
    ensures some { IfSome result (λ found. (r : AnOperation) × (w : AnOperation) × IsAt ops.now found.0 r
        × IsAt ops.now found.1 w × IsTooEarly guarantee ops.now r w) }
{
    for place in 0..ops.len() {
        if let Some(write) = too_early_for(ops, table, guarantee, place) {
            return Some((place as u32, write));
        }
    }
    None
}

/// The write of its value, if the operation at a place is a read that must come before that.
fn too_early_for(
    ops: &[Operation],
    table: &ClusterTable,
    guarantee: Guarantee,
    place: usize,
) -> Option<u32>
    requires history { IsHistory ops.now }
    requires table { IsClusterTable ops.now table.now.clusters.items table.now.numbers.items }
    requires sessions { IsOfSessions guarantee }
    requires within { place < length ops.now }
    ensures none { IfNone result ((r w : AnOperation) → IsAt ops.now place r
        → IsTooEarly guarantee ops.now r w → ⊥) }
    ensures some { IfSome result (λ write. (r : AnOperation) × (w : AnOperation) × IsAt ops.now place r
        × IsAt ops.now write w × IsTooEarly guarantee ops.now r w) }
{
    let number = table.numbers[place]?;
    let write = table.clusters[number as usize].write;
    let read = &ops[place];
    if read.act.changes() {
        return None;
    }
    if is_too_early(guarantee, read, &ops[write as usize]) {
        Some(write)
    } else {
        None
    }
}
