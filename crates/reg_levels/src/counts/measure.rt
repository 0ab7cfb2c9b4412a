//! The counts of a register, and the first operation of each kind.
ghost use Rattle.std.specs.Prelude.{◌≡◌, ◌↔◌, ◌<◌, ◌^◌, IfOk, IsTrue, length, slice_get};
ghost use Rattle.history_model.specs.Operations.{IsHistory};
ghost use Rattle.reg_levels.specs.Clusters.Places.{AreFew, IsByCall};
ghost use Rattle.reg_levels.specs.Clusters.Table.{IsClusterTable};
ghost use Rattle.reg_levels.specs.Counts.Measured.{IsMeasured};

use crate::clusters::ClusterTable;
use crate::counts::lost::lost_writes;
use crate::counts::old_read::OldRead;
use crate::counts::old_reads::{back_reads, inverted_reads, own_missed_reads, stale_reads};
use history_model::Operation;
use std::alloc::{AllocError, Global};

/// How many operations of each kind a register has.
#[derive(Clone, Copy, Debug, PartialEq, Eq)]
pub struct KindCounts {
    /// Reads that a newer write precedes.
    pub stale: u32,
    /// Reads whose session had called a newer write before.
    pub own: u32,
    /// Reads whose session had read a newer value before.
    pub back: u32,
    /// Reads that a read of a newer value precedes.
    pub inverted: u32,
    /// Writes after which reads were called, and all of these gave older values.
    pub lost: u32,
}

/// The counts of a register, and of each kind the operation that is called first.
#[derive(Clone, Copy, Debug, PartialEq, Eq)]
pub struct Staleness {
    pub counts: KindCounts,
    pub stale: Option<OldRead>,
    pub own: Option<OldRead>,
    pub back: Option<OldRead>,
    pub inverted: Option<OldRead>,
    /// A place.
    pub lost: Option<u32>,
}

impl Staleness {
    /// Whether no read is stale. A clean register is regular exactly if this holds.
    pub fn is_fresh(&self) -> bool
        ensures { IsTrue result ↔ (self.now.counts.stale ≡ 0) }
    {
        self.counts.stale == 0
    }
}

/// KindCounts the old reads and the lost writes of a register whose operations stand by their calls.
///
/// It takes n log n steps for n operations.
///
/// # Errors
/// If memory ran out.
pub fn measured(
    alloc: Global,
    ops: &[Operation],
    table: &ClusterTable,
) -> Result<Staleness, AllocError>
    requires history { IsHistory ops.now }
    requires by_call { IsByCall ops.now }
    requires few { AreFew ops.now }
    requires table { IsClusterTable ops.now table.now.clusters.items table.now.numbers.items }
    ensures { IfOk result (IsMeasured ops.now) }
{
    let stale = counted(&stale_reads(alloc, ops, table)?);
    let own = counted(&own_missed_reads(alloc, ops, table)?);
    let back = counted(&back_reads(alloc, ops, table)?);
    let inverted = counted(&inverted_reads(alloc, ops, table)?);
    let lost = lost_writes(alloc, ops, table)?;
    Ok(Staleness {
        counts: KindCounts {
            stale: stale.0,
            own: own.0,
            back: back.0,
            inverted: inverted.0,
            lost: lost.len() as u32,
        },
        stale: stale.1,
        own: own.1,
        back: back.1,
        inverted: inverted.1,
        lost: lost.first().copied(),
    })
}

/// The number of reads in a list, and the first.
fn counted(reads: &[OldRead]) -> (u32, Option<OldRead>)
    requires { length reads.now < 2 ^ 21 }
    ensures count { result.0 ≡ length reads.now }
    ensures first { result.1 ≡ slice_get reads.now 0 }
{
    (reads.len() as u32, reads.first().copied())
}
