//! The edges from the cluster of the initial write to all others.
ghost use Rattle.std.specs.Prelude.{IfNone, IfSome, List, OnOk, length, slice_get, ◌+◌, ◌≡◌, ◌≤◌, ℕ};
ghost use Rattle.history_model.specs.Operations.{IsHistory};
ghost use Rattle.reg_levels.specs.Clusters.Places.{AreFew, IsAt, IsByCall};
ghost use Rattle.reg_levels.specs.Clusters.Table.{IsClusterTable};
ghost use Rattle.reg_levels.specs.LevelGraph.{Extends, InitialReaches, IsLevelGraph};
ghost use Rattle.reg_levels.specs.Levels.{IsOfSessions};
ghost use Rattle.history_model.specs.declared.operation.Operation.{Operation as AnOperation};
ghost use Rattle.history_model.specs.declared.guarantee.Guarantee.{Guarantee};

use crate::clusters::ClusterTable;
use crate::graph::{LevelGraph, PlacePair};
use crate::order_graph::Edge;
use history_model::Operation;
use std::alloc::AllocError;

impl LevelGraph {
    /// Adds edges from the cluster of the initial write, if there is one, to all others.
    pub(crate) fn add_initial(
        &mut self,
        ops: &[Operation],
        table: &ClusterTable,
    ) -> Result<(), AllocError>
        requires history { IsHistory ops.now }
        requires by_call { IsByCall ops.now }
        requires few { AreFew ops.now }
        requires table { IsClusterTable ops.now table.now.clusters.items table.now.numbers.items }
        ensures graph { OnOk result ((guarantee : Guarantee) (calls : List ℕ) → IsOfSessions guarantee
            → IsLevelGraph guarantee ops.now table.now.clusters.items table.now.numbers.items calls self.old
            → IsLevelGraph guarantee ops.now table.now.clusters.items table.now.numbers.items
            calls self.new) }
        ensures extends { OnOk result (Extends self.old.edges.items self.new.edges.items) }
        ensures reaches { OnOk result (InitialReaches ops.now table.now.numbers.items
            (length table.now.clusters.items) self.new.edges.items) }
        ensures longer { OnOk result (length self.new.edges.items
            ≤ length self.old.edges.items + length table.now.clusters.items) }
    {
        let Some(number) = initial_cluster(ops, table) else {
            return Ok(());
        };
        for other in 0..table.clusters.len() as u32 {
            let pair = PlacePair {
                before: 0,
                after: table.clusters[other as usize].write,
            };
            let wanted = other != number;
            self.join_if(
                wanted,
                Edge {
                    from: number,
                    to: other,
                },
                pair,
            )?;
        }
        Ok(())
    }
}

/// The number of the initial write's cluster, if there is one. That write is called first.
fn initial_cluster(ops: &[Operation], table: &ClusterTable) -> Option<u32>
    requires places { length table.now.numbers.items ≡ length ops.now }
    ensures some { IfSome result (λ x. (a : AnOperation) × IsAt ops.now 0 a × (a.process ≡ None)
        × (slice_get table.now.numbers.items 0 ≡ Some (Some x))) }
    ensures none { IfNone result ((x : ℕ) (a : AnOperation) → IsAt ops.now 0 a → a.process ≡ None
        → slice_get table.now.numbers.items 0 ≡ Some (Some x) → ⊥) }
{
    if ops.is_empty() || ops[0].process.is_some() {
        return None;
    }
    table.numbers[0]
}
