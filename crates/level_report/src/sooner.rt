//! The order of the clusters of an atomic register: by the low ends of their zones (Gibbons and Korach,
//! Testing Shared Memories, 1997).
ghost use Rattle.std.specs.Prelude.{◌≡◌, map, IfOk, IsPermutation};
ghost use Rattle.std.specs.List.Sorted.{IsNonDecreasingBy};
ghost use Rattle.history_model.specs.Legal.{IsAtomic};
ghost use Rattle.history_model.specs.Operations.{IsHistory};
ghost use Rattle.history_model.specs.declared.guarantee.Guarantee.TheVariants as guarantee;
ghost use Rattle.reg_levels.specs.Clusters.Places.{AreFew, IsByCall};
ghost use Rattle.reg_levels.specs.Clusters.Table.{IsClusterTable};
ghost use Rattle.level_report.specs.Ordered.{AreLowEnds, KeepsOrder};

use history_model::Operation;
use reg_levels::clusters::ClusterTable;
use std::alloc::{AllocError, Global};

/// A cluster, by its number, and the low end of its zone.
#[derive(Clone, Copy, Debug, PartialEq, Eq)]
struct LowEnd {
    low: u32,
    cluster: u32,
}

/// The low ends of the clusters, by their numbers.
fn low_ends(
    alloc: Global,
    ops: &[Operation],
    table: &ClusterTable,
) -> Result<Vec<LowEnd>, AllocError>
    requires few { AreFew ops.now }
    requires table { IsClusterTable ops.now table.now.clusters.items table.now.numbers.items }
    ensures { IfOk result (λ ends. AreLowEnds table.now.clusters.items ends.items) }
{
    let mut ends = Vec::with_capacity(alloc, ops.len())?;
    for number in 0..table.clusters.len() {
        let cluster = table.clusters[number];
        ends.push(LowEnd {
            low: cluster.first_reply.min(cluster.last_call),
            cluster: number as u32,
        })?;
    }
    Ok(ends)
}

/// Sorts clusters by low ends.
fn sort(ends: &mut Vec<LowEnd>)
    ensures permutation { IsPermutation ends.old.items ends.new.items }
    ensures rising { IsNonDecreasingBy (λ x. x.low) ends.new.items }
{
    ends.sort_unstable_by_key(|end| end.low);
}

/// The numbers of clusters.
fn numbers_of(alloc: Global, ends: &[LowEnd]) -> Result<Vec<u32>, AllocError>
    ensures { IfOk result (λ numbers. numbers.items ≡ map (λ x. x.cluster) ends.now) }
{
    ends.iter().map(|end| end.cluster).collect(alloc)
}

/// The clusters of an atomic register in an order that keeps that.
pub(crate) fn atomic_order(
    alloc: Global,
    ops: &[Operation],
    table: &ClusterTable,
) -> Result<Vec<u32>, AllocError>
    requires history { IsHistory ops.now }
    requires by_call { IsByCall ops.now }
    requires few { AreFew ops.now }
    requires table { IsClusterTable ops.now table.now.clusters.items table.now.numbers.items }
    requires atomic { IsAtomic ops.now }
    ensures { IfOk result (λ order.
        KeepsOrder guarantee.Atomic ops.now table.now.clusters.items order.items) }
{
    let mut ends = low_ends(alloc, ops, table)?;
    sort(&mut ends);
    numbers_of(alloc, &ends)
}
