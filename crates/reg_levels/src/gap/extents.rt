//! The extents of all clusters, by their first replies.
ghost use Rattle.std.specs.Prelude.{◌≡◌, IfOk, IsPermutation, length};
ghost use Rattle.std.specs.List.Sorted.{IsNonDecreasingBy};
ghost use Rattle.reg_levels.specs.Clusters.Places.{AreFew};
ghost use Rattle.reg_levels.specs.Clusters.Table.{IsClusterTable};
ghost use Rattle.reg_levels.specs.Gap.Conflicts.{AreExtents, AreExtentsBelow};

use crate::clusters::ClusterTable;
use crate::gap::extent::Extent;
use history_model::Operation;
use std::alloc::{AllocError, Global};

/// The extents of the clusters of a register's operations, by first replies.
pub(crate) fn extents(
    alloc: Global,
    ops: &[Operation],
    table: &ClusterTable,
) -> Result<Vec<Extent>, AllocError>
    requires few { AreFew ops.now }
    requires table { IsClusterTable ops.now table.now.clusters.items table.now.numbers.items }
    ensures { IfOk result (λ xs. AreExtents ops.now table.now.clusters.items xs.items) }
{
    let mut extents = numbered(alloc, ops, table)?;
    sort(&mut extents);
    Ok(extents)
}

/// The extents of the clusters, by their numbers.
fn numbered(
    alloc: Global,
    ops: &[Operation],
    table: &ClusterTable,
) -> Result<Vec<Extent>, AllocError>
    requires few { AreFew ops.now }
    requires table { IsClusterTable ops.now table.now.clusters.items table.now.numbers.items }
    ensures { IfOk result (λ xs. AreExtentsBelow ops.now table.now.clusters.items
        (length table.now.clusters.items) xs.items) }
{
    let mut extents = Vec::with_capacity(alloc, table.clusters.len())?;
    for number in 0..table.clusters.len() {
        let ends = table.clusters[number];
        extents.push(Extent {
            first_reply: ends.first_reply,
            write_call: ops[ends.write as usize].call,
            last_call: ends.last_call,
            cluster: number as u32,
        })?;
    }
    Ok(extents)
}

/// Sorts extents by their first replies.
fn sort(extents: &mut Vec<Extent>)
    ensures permutation { IsPermutation extents.old.items extents.new.items }
    ensures rising { IsNonDecreasingBy (λ x. x.first_reply) extents.new.items }
{
    extents.sort_unstable_by_key(|extent| extent.first_reply);
}
