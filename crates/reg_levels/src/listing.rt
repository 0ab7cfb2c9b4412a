//! A legal order of the operations, from an order of the clusters.
ghost use Rattle.std.specs.Prelude.{All, IfNone, IfOk, IfSome, List, OnOk, length, slice_get, ◌≡◌, ◌++◌};
ghost use Rattle.std.specs.Prelude.{◌<◌, ◌≤◌, ◌^◌, ℕ};
ghost use Rattle.std.specs.List.{filter};
ghost use Rattle.history_model.specs.Legal.{IsLegalFor};
ghost use Rattle.history_model.specs.Operations.{IsHistory};
ghost use Rattle.history_model.specs.declared.guarantee.Guarantee.{Guarantee};
ghost use Rattle.history_model.specs.declared.operation.Operation.{Operation as AnOperation};
ghost use Rattle.level_laws.specs.Leads.{IsCleanFor};
ghost use Rattle.level_laws.specs.WriteOrders.{IsWriteOrder, is_read_of};
ghost use Rattle.reg_levels.specs.Clusters.Places.{AreFew, IsByCall};
ghost use Rattle.reg_levels.specs.Clusters.Table.{IsClusterTable};
ghost use Rattle.reg_levels.specs.declared.clusters.table.ClusterEnds.{ClusterEnds as AnEnds};
ghost use Rattle.reg_levels.specs.Decisions.{operations_of_places, writes_of};
ghost use Rattle.reg_levels.specs.LevelGraph.{IsClusterWrite};
ghost use Rattle.reg_levels.specs.ReadLists.{AreReadLists, GoAhead, IsReadNumber};

use crate::clusters::ClusterTable;
use history_model::Operation;
use std::alloc::{AllocError, Global};

/// The reads of each cluster by place, in lists that end at the number of all operations.
#[derive(Drop)]
pub(crate) struct ReadLists {
    /// For each cluster its first read.
    first: Vec<u32>,
    /// For each read the next one of its cluster.
    next: Vec<u32>,
}

/// The places of the operations in a legal order, from an order of the clusters that [`crate::decide`]
/// gave: each write, followed by the reads of its value.
pub fn order_of(
    alloc: Global,
    ops: &[Operation],
    table: &ClusterTable,
    order: &[u32],
) -> Result<Vec<u32>, AllocError>
    requires history { IsHistory ops.now }
    requires by_call { IsByCall ops.now }
    requires few { AreFew ops.now }
    requires table { IsClusterTable ops.now table.now.clusters.items table.now.numbers.items }
    requires within { All (λ k. k < length table.now.clusters.items) order.now }
    ensures { IfOk result (λ places. (guarantee : Guarantee) → IsCleanFor guarantee ops.now
        → IsWriteOrder guarantee ops.now (writes_of ops.now table.now.clusters.items order.now)
        → IsLegalFor guarantee ops.now (operations_of_places ops.now places.items)) }
{
    let lists = read_lists(alloc, ops, table)?;
    let mut places = Vec::with_capacity(alloc, ops.len())?;
    for number in order {
        places.push(table.clusters[*number as usize].write)?;
        lists.push_reads(&mut places, *number)?;
    }
    Ok(places)
}

/// The reads of each cluster.
fn read_lists(
    alloc: Global,
    ops: &[Operation],
    table: &ClusterTable,
) -> Result<ReadLists, AllocError>
    requires history { IsHistory ops.now }
    requires by_call { IsByCall ops.now }
    requires few { AreFew ops.now }
    requires table { IsClusterTable ops.now table.now.clusters.items table.now.numbers.items }
    ensures { IfOk result
        (λ lists. AreReadLists ops.now table.now.clusters.items 0 lists.first.items lists.next.items) }
{
    let none = ops.len() as u32;
    let mut first = vec![in alloc; none; table.clusters.len()]?;
    let mut next = vec![in alloc; none; ops.len()]?;
    for place in (0..ops.len()).rev() {
        if let Some(number) = read_number(ops, table, place) {
            next[place] = first[number as usize];
            first[number as usize] = place as u32;
        }
    }
    Ok(ReadLists { first, next })
}

/// The number of its cluster, if the operation at a place is a completed read.
fn read_number(ops: &[Operation], table: &ClusterTable, place: usize) -> Option<u32>
    requires table { IsClusterTable ops.now table.now.clusters.items table.now.numbers.items }
    requires within { place < length ops.now }
    ensures some { IfSome result (λ k. IsReadNumber ops.now table.now.numbers.items place k) }
    ensures none { IfNone result ((k : ℕ) → IsReadNumber ops.now table.now.numbers.items place k → ⊥) }
{
    if ops[place].act.changes() {
        None
    } else {
        table.numbers[place]
    }
}

impl ReadLists {
    /// Adds the places of a cluster's reads.
    fn push_reads(&self, places: &mut Vec<u32>, number: u32) -> Result<(), AllocError>
        requires within { number < length self.now.first.items }
        requires ahead { GoAhead self.now.first.items self.now.next.items }
        ensures { OnOk result ((ops : List AnOperation) (clusters : List AnEnds) (w : AnOperation)
            → AreReadLists ops clusters 0 self.now.first.items self.now.next.items
            → IsClusterWrite ops clusters number w
            → operations_of_places ops places.new.items
            ≡ operations_of_places ops places.old.items ++ filter (is_read_of w) ops) }
    {
        let mut place = self.first[number as usize] as usize;
        while place < self.next.len() {
            places.push(place as u32)?;
            place = self.next[place] as usize;
        }
        Ok(())
    }
}
