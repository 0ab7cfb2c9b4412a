//! The ends of each cluster, from one pass over the operations.
ghost use Rattle.std.specs.Prelude.{◌≡◌, ◌<◌, ◌+◌, length, replicate, IfOk, Some, None};
ghost use Rattle.history_model.specs.Operations.{IsHistory};
ghost use Rattle.history_model.specs.declared.operation.Operation.{Operation as AnOperation};
ghost use Rattle.reg_levels.specs.Clusters.Places.{AreFew, IsAt, IsByCall};
ghost use Rattle.reg_levels.specs.Clusters.Steps.{AreEnds, AreSources, IsAlone, IsSource, IsWidened};

use crate::clusters::table::ClusterEnds;
use history_model::Operation;
use std::alloc::{AllocError, Global};

/// For each write that is kept the ends of its cluster, at its place; for every other operation none.
pub(crate) fn ends(
    alloc: Global,
    ops: &[Operation],
    sources: &[Option<u32>],
) -> Result<Vec<Option<ClusterEnds>>, AllocError>
    requires history { IsHistory ops.now }
    requires by_call { IsByCall ops.now }
    requires few { AreFew ops.now }
    requires sources { AreSources ops.now (length ops.now) sources.now }
    ensures { IfOk result (λ ends. AreEnds ops.now (length ops.now) ends.items) }
{
    let mut ends = none_known(alloc, ops.len())?;
    for place in 0..ops.len() {
        match sources[place] {
            Some(write) => add(&mut ends, ops, place as u32, write),
            None => {}
        }
    }
    Ok(ends)
}

/// No ends, for so many operations.
fn none_known(alloc: Global, operations: usize) -> Result<Vec<Option<ClusterEnds>>, AllocError>
    ensures { IfOk result (λ ends. ends.items ≡ replicate operations None) }
{
    let mut ends = Vec::new(alloc);
    ends.resize(operations, None)?;
    Ok(ends)
}

/// Adds the operation at a place to the ends of its cluster, if it is completed; `write` is the place of the
/// write of its value.
fn add(ends: &mut Vec<Option<ClusterEnds>>, ops: &[Operation], place: u32, write: u32)
    requires history { IsHistory ops.now }
    requires by_call { IsByCall ops.now }
    requires place { place < length ops.now }
    requires source { (a : AnOperation) → IsAt ops.now place a → IsSource ops.now a (Some write) }
    requires ends { AreEnds ops.now place ends.old.items }
    ensures { AreEnds ops.now (place + 1) ends.new.items }
{
    let op = &ops[place as usize];
    if op.completed {
        let known = match ends[write as usize] {
            Some(known) => known,
            None => alone(write, &ops[write as usize]),
        };
        ends[write as usize] = Some(known.with(place, op));
    }
}

/// The ends of a cluster that has its write alone.
fn alone(write: u32, op: &Operation) -> ClusterEnds
    ensures { IsAlone write op.now result }
{
    ClusterEnds {
        write,
        first: write,
        last: write,
        first_reply: op.reply,
        last_call: op.call,
    }
}

impl ClusterEnds {
    /// With one more operation of the cluster.
    fn with(self, place: u32, op: &Operation) -> ClusterEnds
        ensures { IsWidened place op.now self result }
    {
        let (first, first_reply) = if op.reply < self.first_reply {
            (place, op.reply)
        } else {
            (self.first, self.first_reply)
        };
        let (last, last_call) = if self.last_call < op.call {
            (place, op.call)
        } else {
            (self.last, self.last_call)
        };
        ClusterEnds {
            write: self.write,
            first,
            last,
            first_reply,
            last_call,
        }
    }
}
