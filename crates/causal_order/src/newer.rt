//! The writes that a read knows of, and the write of its value doesn't.
ghost use Rattle.std.specs.Prelude.{List, OnOk, get_or, length, ◌+◌, ◌≡◌, ◌≤◌, ◌<◌, ◌^◌, ℕ};
ghost use Rattle.causal_order.specs.CausalGraph.{IsCausalGraph, Keeps};
ghost use Rattle.causal_order.specs.Covering.{AreReached, IsAnyKnown, IsNewest, IsSourcedRead};
ghost use Rattle.history_model.specs.declared.operation.Operation.{Operation as AnOperation};
ghost use Rattle.causal_order.specs.SessionClocks.WriteIndex.{IsOrdered, IsWriteIndex};
ghost use Rattle.causal_order.specs.declared.session_clocks.table.SessionTable.{SessionTable as ATable};

use crate::graph::{CausalGraph, EdgeReason};
use crate::session_clocks::WriteIndex;
use reg_levels::order_graph::Edge;
use std::alloc::AllocError;

/// A completed read and the write of its value, by their places.
#[derive(Clone, Copy)]
pub(crate) struct SourcedRead {
    pub(crate) register: u32,
    pub(crate) source: u32,
    pub(crate) read: u32,
}

/// The last write of a session to a register between two places, if there is one: the first place counts, the
/// second doesn't.
pub(crate) fn newest_between(
    index: &WriteIndex,
    register: u32,
    session: u32,
    from: u32,
    below: u32,
) -> Option<u32>
    requires ordered { IsOrdered index.now }
    ensures { (ops : List AnOperation) (table : ATable) → IsWriteIndex ops table index.now
        → IsNewest ops table register session from below result }
{
    if from >= below {
        return None;
    }
    let last = index.last_below(register, session, below)?;
    if last >= from { Some(last) } else { None }
}

/// A write of a register that is known by a row, if there is one.
pub(crate) fn any_known(index: &WriteIndex, register: u32, row: &[u32]) -> Option<u32>
    requires ordered { IsOrdered index.now }
    requires few { length row.now < 2 ^ 32 }
    ensures { (ops : List AnOperation) (table : ATable) → IsWriteIndex ops table index.now
        → IsAnyKnown ops table register row.now (length row.now) result }
{
    for session in 0..row.len() as u32 {
        if let Some(write) = index.last_below(register, session, row[session as usize]) {
            return Some(write);
        }
    }
    None
}

impl CausalGraph {
    /// Adds an edge to the write of the read's value from the last write of each session that the read knows
    /// of, by its row `later`, if that write doesn't know of it, by its row `earlier`.
    pub(crate) fn join_newer(
        &mut self,
        index: &WriteIndex,
        of: SourcedRead,
        earlier: &[u32],
        later: &[u32],
    ) -> Result<(), AllocError>
        requires ordered { IsOrdered index.now }
        requires entries { length earlier.now ≡ length later.now }
        requires few { length later.now < 2 ^ 32 }
        ensures graph { OnOk result ((ops : List AnOperation) (table : ATable)
            → IsWriteIndex ops table index.now → IsSourcedRead ops table of earlier.now later.now
            → IsCausalGraph ops self.old → IsCausalGraph ops self.new) }
        ensures keeps { OnOk result (Keeps self.old.edges.items self.new.edges.items) }
        ensures reached { OnOk result ((ops : List AnOperation) (table : ATable)
            → IsWriteIndex ops table index.now
            → AreReached ops table of earlier.now later.now (length later.now) self.new.edges.items) }
        ensures longer { OnOk result (length self.new.edges.items
            ≤ length self.old.edges.items + length later.now) }
    {
        for session in 0..later.len() as u32 {
            let from = earlier[session as usize];
            let below = later[session as usize];
            let newest = newest_between(index, of.register, session, from, below);
            self.join_from(newest, of.source, EdgeReason::Known { read: of.read })?;
        }
        Ok(())
    }
}
