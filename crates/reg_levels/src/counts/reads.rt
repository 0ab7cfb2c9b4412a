//! The cluster of a read.
ghost use Rattle.std.specs.Prelude.{◌≡◌, ◌↔◌, ◌<◌, IsTrue, length};
ghost use Rattle.history_model.specs.Operations.{IsCompletedRead, IsHistory};
ghost use Rattle.history_model.specs.declared.operation.Operation.{Operation as AnOperation};
ghost use Rattle.reg_levels.specs.Clusters.Places.{IsAt};
ghost use Rattle.reg_levels.specs.Clusters.Table.{IsClusterTable};
ghost use Rattle.reg_levels.specs.Counts.Marks.{IsReadEnds};

use crate::clusters::{ClusterEnds, ClusterTable};
use history_model::Operation;

/// Whether an operation is a completed read.
pub(crate) fn is_completed_read(op: &Operation) -> bool
    ensures { IsTrue result ↔ IsCompletedRead op.now }
{
    !op.act.changes() && op.completed
}

/// The ends of the cluster of the operation at a place, if it is a completed read.
pub(crate) fn read_ends(ops: &[Operation], table: &ClusterTable, place: u32) -> Option<ClusterEnds>
    requires history { IsHistory ops.now }
    requires table { IsClusterTable ops.now table.now.clusters.items table.now.numbers.items }
    requires place { place < length ops.now }
    ensures { (a : AnOperation) → IsAt ops.now place a → IsReadEnds ops.now a result }
{
    if is_completed_read(&ops[place as usize]) {
        table.ends_at(place)
    } else {
        None
    }
}
