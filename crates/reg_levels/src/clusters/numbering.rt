//! Numbers for the clusters, by the calls of their writes.
ghost use Rattle.std.specs.Prelude.{◌≡◌, ◌<◌, ◌^◌, ℕ, length, slice_get, IfOk, Some};
ghost use Rattle.reg_levels.specs.Clusters.Steps.{AreFromWrites, IsNumberFrom, IsNumberedBelow};
ghost use Rattle.reg_levels.specs.Clusters.Steps.{StandAtWrites};

use crate::clusters::table::{ClusterEnds, ClusterTable};
use std::alloc::{AllocError, Global};

/// The ends that stand at the places of writes, in order, each numbered there.
pub(crate) fn numbered(
    alloc: Global,
    ends: &[Option<ClusterEnds>],
) -> Result<ClusterTable, AllocError>
    requires few { length ends.now < 2 ^ 21 }
    requires places { StandAtWrites ends.now }
    ensures { IfOk result (λ table. IsNumberedBelow ends.now (length ends.now)
        table.clusters.items table.numbers.items) }
{
    let mut clusters = Vec::new(alloc);
    let mut numbers = Vec::with_capacity(alloc, ends.len())?;
    for place in 0..ends.len() {
        match ends[place] {
            Some(found) => {
                numbers.push(Some(clusters.len() as u32))?;
                clusters.push(found)?;
            }
            None => numbers.push(None)?,
        }
    }
    Ok(ClusterTable { clusters, numbers })
}

/// The number of each operation's cluster: that of its write.
pub(crate) fn numbers(
    alloc: Global,
    by_write: &[Option<u32>],
    sources: &[Option<u32>],
) -> Result<Vec<Option<u32>>, AllocError>
    requires { (p q : ℕ) → slice_get sources.now p ≡ Some (Some q) → q < length by_write.now }
    ensures { IfOk result (λ numbers. AreFromWrites by_write.now sources.now (length sources.now)
        numbers.items) }
{
    let mut numbers = Vec::with_capacity(alloc, sources.len())?;
    for place in 0..sources.len() {
        numbers.push(number_from(by_write, sources[place]))?;
    }
    Ok(numbers)
}

/// The number that stands at the place of an operation's write.
fn number_from(by_write: &[Option<u32>], source: Option<u32>) -> Option<u32>
    requires { (q : ℕ) → source ≡ Some q → q < length by_write.now }
    ensures { IsNumberFrom by_write.now source result }
{
    by_write[source? as usize]
}
