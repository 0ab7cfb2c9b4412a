//! The old reads of each kind.
ghost use Rattle.std.specs.Prelude.{◌≡◌, ◌<◌, length, IfOk};
ghost use Rattle.history_model.specs.Operations.{IsHistory};
ghost use Rattle.history_model.specs.declared.operation.Operation.{Operation as AnOperation};
ghost use Rattle.reg_levels.specs.Clusters.Places.{AreFew, IsAt, IsByCall};
ghost use Rattle.reg_levels.specs.Clusters.Table.{IsClusterTable};
ghost use Rattle.reg_levels.specs.Counts.Listing.{AreBackReads, AreInvertedReads, AreOwnMissedReads};
ghost use Rattle.reg_levels.specs.Counts.Listing.{AreStaleReads};
ghost use Rattle.reg_levels.specs.Counts.Marks.{AreFound, HasMark, HoldsMark, IsFollowedBy, IsFollowedFound};
ghost use Rattle.reg_levels.specs.Counts.Marks.{IsPrecededFound, IsRanked};

use crate::clusters::ClusterTable;
use crate::counts::mark::Mark;
use crate::counts::marks::{read_marks, write_marks};
use crate::counts::old_read::OldRead;
use crate::counts::ranking::Ranking;
use crate::counts::reads::read_ends;
use crate::counts::session::last_in_session;
use history_model::Operation;
use std::alloc::{AllocError, Global};

/// The stale reads by call: those that a newer write precedes. `newer` is the write that replied first, of
/// those that are newer than the read's value, and `earlier` the same.
///
/// # Errors
/// If memory ran out.
pub fn stale_reads(
    alloc: Global,
    ops: &[Operation],
    table: &ClusterTable,
) -> Result<Vec<OldRead>, AllocError>
    requires history { IsHistory ops.now }
    requires by_call { IsByCall ops.now }
    requires few { AreFew ops.now }
    requires table { IsClusterTable ops.now table.now.clusters.items table.now.numbers.items }
    ensures { IfOk result (λ reads. AreStaleReads ops.now reads.items) }
{
    let marks = write_marks(alloc, ops)?;
    preceded(alloc, ops, table, &marks)
}

/// The reads by call that a read of a newer value precedes: `earlier` is the one that replied first.
///
/// # Errors
/// If memory ran out.
pub fn inverted_reads(
    alloc: Global,
    ops: &[Operation],
    table: &ClusterTable,
) -> Result<Vec<OldRead>, AllocError>
    requires history { IsHistory ops.now }
    requires by_call { IsByCall ops.now }
    requires few { AreFew ops.now }
    requires table { IsClusterTable ops.now table.now.clusters.items table.now.numbers.items }
    ensures { IfOk result (λ reads. AreInvertedReads ops.now reads.items) }
{
    let marks = read_marks(alloc, ops, table)?;
    preceded(alloc, ops, table, &marks)
}

/// The reads by call whose session had called a newer write before: `newer` is the last of them, and
/// `earlier` the same.
///
/// # Errors
/// If memory ran out.
pub fn own_missed_reads(
    alloc: Global,
    ops: &[Operation],
    table: &ClusterTable,
) -> Result<Vec<OldRead>, AllocError>
    requires history { IsHistory ops.now }
    requires by_call { IsByCall ops.now }
    requires few { AreFew ops.now }
    requires table { IsClusterTable ops.now table.now.clusters.items table.now.numbers.items }
    ensures { IfOk result (λ reads. AreOwnMissedReads ops.now reads.items) }
{
    let marks = write_marks(alloc, ops)?;
    followed(alloc, ops, table, &marks)
}

/// The reads by call whose session had read a newer value before: `newer` is the newest, and `earlier` a
/// read of it.
///
/// # Errors
/// If memory ran out.
pub fn back_reads(
    alloc: Global,
    ops: &[Operation],
    table: &ClusterTable,
) -> Result<Vec<OldRead>, AllocError>
    requires history { IsHistory ops.now }
    requires by_call { IsByCall ops.now }
    requires few { AreFew ops.now }
    requires table { IsClusterTable ops.now table.now.clusters.items table.now.numbers.items }
    ensures { IfOk result (λ reads. AreBackReads ops.now reads.items) }
{
    let marks = read_marks(alloc, ops, table)?;
    followed(alloc, ops, table, &marks)
}

/// The reads that marked operations precede.
fn preceded(
    alloc: Global,
    ops: &[Operation],
    table: &ClusterTable,
    marks: &[Option<Mark>],
) -> Result<Vec<OldRead>, AllocError>
    requires history { IsHistory ops.now }
    requires few { AreFew ops.now }
    requires table { IsClusterTable ops.now table.now.clusters.items table.now.numbers.items }
    ensures { IfOk result (λ reads. AreFound (IsPrecededFound (HasMark marks.now) ops.now) ops.now (length
        ops.now)
        reads.items) }
{
    let ranking = Ranking::of(alloc, marks)?;
    let mut reads = Vec::new(alloc);
    for place in 0..ops.len() {
        match preceded_at(ops, table, &ranking, place as u32) {
            Some(read) => reads.push(read)?,
            None => {}
        }
    }
    Ok(reads)
}

/// The read at a place, if a marked operation precedes it.
fn preceded_at(
    ops: &[Operation],
    table: &ClusterTable,
    ranking: &Ranking,
    place: u32,
) -> Option<OldRead>
    requires history { IsHistory ops.now }
    requires table { IsClusterTable ops.now table.now.clusters.items table.now.numbers.items }
    requires ranking { IsRanked ranking.now.marks.items ranking.now.least.items }
    requires place { place < length ops.now }
    ensures { (a : AnOperation) → IsAt ops.now place a
        → IsPrecededFound (HoldsMark ranking.now.marks.items) ops.now place a result }
{
    let ends = read_ends(ops, table, place)?;
    let mark = ranking.first_above(ends.first_reply)?;
    if mark.rank < ops[place as usize].call {
        Some(OldRead {
            read: place,
            earlier: mark.place,
            newer: mark.newer,
            seen: ends.first,
        })
    } else {
        None
    }
}

/// The reads that follow marked operations in their sessions.
fn followed(
    alloc: Global,
    ops: &[Operation],
    table: &ClusterTable,
    marks: &[Option<Mark>],
) -> Result<Vec<OldRead>, AllocError>
    requires history { IsHistory ops.now }
    requires few { AreFew ops.now }
    requires table { IsClusterTable ops.now table.now.clusters.items table.now.numbers.items }
    requires marks { length marks.now ≡ length ops.now }
    ensures { IfOk result (λ reads. AreFound (IsFollowedFound ops.now marks.now) ops.now (length ops.now)
        reads.items) }
{
    let last = last_in_session(alloc, ops, marks)?;
    let mut reads = Vec::new(alloc);
    for place in 0..ops.len() {
        match followed_at(ops, table, last[place], place as u32) {
            Some(read) => reads.push(read)?,
            None => {}
        }
    }
    Ok(reads)
}

/// The read at a place, if it follows a marked operation in its session. `last` is the mark of greatest key
/// before it.
fn followed_at(
    ops: &[Operation],
    table: &ClusterTable,
    last: Option<Mark>,
    place: u32,
) -> Option<OldRead>
    requires history { IsHistory ops.now }
    requires table { IsClusterTable ops.now table.now.clusters.items table.now.numbers.items }
    requires place { place < length ops.now }
    ensures { (a : AnOperation) → IsAt ops.now place a → IsFollowedBy ops.now last place a result }
{
    let ends = read_ends(ops, table, place)?;
    let mark = last?;
    if ends.first_reply < mark.key {
        Some(OldRead {
            read: place,
            earlier: mark.place,
            newer: mark.newer,
            seen: ends.first,
        })
    } else {
        None
    }
}
