//! The marks of a register's operations.
ghost use Rattle.std.specs.Prelude.{◌≡◌, ◌<◌, length, IfOk};
ghost use Rattle.history_model.specs.Operations.{IsHistory};
ghost use Rattle.history_model.specs.declared.operation.Operation.{Operation as AnOperation};
ghost use Rattle.reg_levels.specs.Clusters.Places.{AreFew, IsAt};
ghost use Rattle.reg_levels.specs.Clusters.Table.{IsClusterTable};
ghost use Rattle.reg_levels.specs.Counts.Marks.{AreMarks, IsAgeMarked, IsMarkFound};
ghost use Rattle.reg_levels.specs.Counts.Staleness.{Gave, Wrote};

use crate::clusters::ClusterTable;
use crate::counts::mark::Mark;
use crate::counts::reads::read_ends;
use history_model::Operation;
use std::alloc::{AllocError, Global};

/// The marks of the writes: key is the call, and rank the reply.
pub(crate) fn write_marks(alloc: Global, ops: &[Operation]) -> Result<Vec<Option<Mark>>, AllocError>
    requires { AreFew ops.now }
    ensures { IfOk result (λ marks. AreMarks (IsMarkFound Wrote ops.now) ops.now (length ops.now)
        marks.items) }
{
    let mut marks = Vec::with_capacity(alloc, ops.len())?;
    for place in 0..ops.len() {
        marks.push(write_mark(ops, place as u32))?;
    }
    Ok(marks)
}

/// The mark of the operation at a place, if it is a write.
fn write_mark(ops: &[Operation], place: u32) -> Option<Mark>
    requires { place < length ops.now }
    ensures { (a : AnOperation) → IsAt ops.now place a → IsMarkFound Wrote ops.now place a result }
{
    let op = &ops[place as usize];
    if op.act.changes() {
        Some(Mark {
            key: op.call,
            rank: op.reply,
            place,
            newer: place,
        })
    } else {
        None
    }
}

/// The marks of the completed reads: key is the call of the write of the value, and rank the reply.
pub(crate) fn read_marks(
    alloc: Global,
    ops: &[Operation],
    table: &ClusterTable,
) -> Result<Vec<Option<Mark>>, AllocError>
    requires history { IsHistory ops.now }
    requires few { AreFew ops.now }
    requires table { IsClusterTable ops.now table.now.clusters.items table.now.numbers.items }
    ensures { IfOk result (λ marks. AreMarks (IsMarkFound Gave ops.now) ops.now (length ops.now)
        marks.items) }
{
    let mut marks = Vec::with_capacity(alloc, ops.len())?;
    for place in 0..ops.len() {
        marks.push(read_mark(ops, table, place as u32))?;
    }
    Ok(marks)
}

/// The mark of the operation at a place, if it is a completed read.
fn read_mark(ops: &[Operation], table: &ClusterTable, place: u32) -> Option<Mark>
    requires history { IsHistory ops.now }
    requires place { place < length ops.now }
    requires table { IsClusterTable ops.now table.now.clusters.items table.now.numbers.items }
    ensures { (a : AnOperation) → IsAt ops.now place a → IsMarkFound Gave ops.now place a result }
{
    match read_ends(ops, table, place) {
        Some(ends) => Some(Mark {
            key: ops[ends.write as usize].call,
            rank: ops[place as usize].reply,
            place,
            newer: ends.write,
        }),
        None => None,
    }
}

/// The marks of the completed reads by age: key is the call, and the later the first reply of the cluster,
/// the lower is the rank.
pub(crate) fn age_marks(
    alloc: Global,
    ops: &[Operation],
    table: &ClusterTable,
) -> Result<Vec<Option<Mark>>, AllocError>
    requires history { IsHistory ops.now }
    requires few { AreFew ops.now }
    requires table { IsClusterTable ops.now table.now.clusters.items table.now.numbers.items }
    ensures { IfOk result (λ marks. AreMarks (IsAgeMarked ops.now) ops.now (length ops.now) marks.items) }
{
    let mut marks = Vec::with_capacity(alloc, ops.len())?;
    for place in 0..ops.len() {
        marks.push(age_mark(ops, table, place as u32))?;
    }
    Ok(marks)
}

/// The mark of the operation at a place, if it is a completed read.
fn age_mark(ops: &[Operation], table: &ClusterTable, place: u32) -> Option<Mark>
    requires history { IsHistory ops.now }
    requires place { place < length ops.now }
    requires table { IsClusterTable ops.now table.now.clusters.items table.now.numbers.items }
    ensures { (a : AnOperation) → IsAt ops.now place a → IsAgeMarked ops.now place a result }
{
    match read_ends(ops, table, place) {
        Some(ends) => Some(Mark {
            key: ops[place as usize].call,
            rank: u32::MAX - ends.first_reply,
            place,
            newer: ends.write,
        }),
        None => None,
    }
}
