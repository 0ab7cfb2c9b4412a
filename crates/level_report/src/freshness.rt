//! The age of a register's values, by lines.
ghost use Rattle.std.specs.Prelude.{◌≡◌, None, Some, IfOk};
ghost use Rattle.history_model.specs.Operations.{IsHistory};
ghost use Rattle.reg_levels.specs.Clusters.Clean.{IsClean};
ghost use Rattle.reg_levels.specs.Clusters.Places.{AreFew, IsByCall};
ghost use Rattle.reg_levels.specs.Clusters.Table.{IsClusterTable};
ghost use Rattle.level_report.specs.Freshness.{AreStalePairs, AreStaleShown, IsCleanShown};
ghost use Rattle.level_report.specs.Freshness.{without_counts as no_counts};

use crate::lines::{gap_if, line_if, missed_if, stale_pairs, went_back_if};
use history_model::Operation;
use reg_levels::clusters::ClusterTable;
use reg_levels::counts::{measured, stale_reads};
use reg_levels::gap::gap_of;
use report_text::level::{EarlyRead, Freshness};
use std::alloc::{AllocError, Global};

/// Of a clean register: the counts, the first of each, and the gap.
pub(crate) fn clean_freshness(
    alloc: Global,
    ops: &[Operation],
    table: &ClusterTable,
    stale: bool,
) -> Result<Freshness, AllocError>
    requires history { IsHistory ops.now }
    requires by_call { IsByCall ops.now }
    requires few { AreFew ops.now }
    requires table { IsClusterTable ops.now table.now.clusters.items table.now.numbers.items }
    requires clean { IsClean ops.now }
    ensures { IfOk result (IsCleanShown ops.now stale) }
{
    let gap = gap_of(alloc, ops, table)?;
    let found = measured(alloc, ops, table)?;
    Ok(Freshness {
        atomic: gap.is_none(),
        regular: found.is_fresh(),
        unwritten: None,
        early: None,
        stale: Some(found.counts.stale),
        own: Some(found.counts.own),
        back: Some(found.counts.back),
        inverted: Some(found.counts.inverted),
        lost: Some(found.counts.lost),
        stale_read: missed_if(ops, found.stale),
        own_read: missed_if(ops, found.own),
        back_read: went_back_if(ops, found.back),
        inverted_read: went_back_if(ops, found.inverted),
        lost_write: line_if(ops, found.lost),
        gap: gap_if(ops, gap),
        stale_reads: stale_if(alloc, ops, table, stale)?,
    })
}

/// All stale reads, each with the write that it missed, if they are asked for.
fn stale_if(
    alloc: Global,
    ops: &[Operation],
    table: &ClusterTable,
    stale: bool,
) -> Result<Option<Vec<(u32, u32)>>, AllocError>
    requires history { IsHistory ops.now }
    requires by_call { IsByCall ops.now }
    requires few { AreFew ops.now }
    requires table { IsClusterTable ops.now table.now.clusters.items table.now.numbers.items }
    ensures { IfOk result (AreStaleShown ops.now stale) }
{
    match stale {
        true => Ok(Some(all_stale(alloc, ops, table)?)),
        false => Ok(None),
    }
}

/// All stale reads, each with the write that it missed.
fn all_stale(
    alloc: Global,
    ops: &[Operation],
    table: &ClusterTable,
) -> Result<Vec<(u32, u32)>, AllocError>
    requires history { IsHistory ops.now }
    requires by_call { IsByCall ops.now }
    requires few { AreFew ops.now }
    requires table { IsClusterTable ops.now table.now.clusters.items table.now.numbers.items }
    ensures { IfOk result (AreStalePairs ops.now) }
{
    let reads = stale_reads(alloc, ops, table)?;
    stale_pairs(alloc, ops, &reads)
}

/// Of any other register: the unwritten read, or the early one.
pub(crate) fn without_counts(unwritten: Option<u32>, early: Option<EarlyRead>) -> Freshness
    ensures { result ≡ no_counts unwritten early }
{
    Freshness {
        atomic: false,
        regular: false,
        unwritten,
        early,
        stale: None,
        own: None,
        back: None,
        inverted: None,
        lost: None,
        stale_read: None,
        own_read: None,
        back_read: None,
        inverted_read: None,
        lost_write: None,
        gap: None,
        stale_reads: None,
    }
}
