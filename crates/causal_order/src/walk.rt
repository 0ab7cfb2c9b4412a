//! A walk along the operations, each after those that it learns of at once.
ghost use Rattle.std.specs.Prelude.{IfOk, List, MatchOption, OnOk, length, slice_get, ◌+◌, ◌*◌, ◌≡◌, ◌≤◌};
ghost use Rattle.std.specs.Prelude.{◌<◌, ◌^◌, ℕ};
ghost use Rattle.std.specs.Prelude.{None, Some, true, false, ◌⊎◌};
ghost use Rattle.causal_order.specs.CausalGraph.{IsCausalGraph, Keeps};
ghost use Rattle.causal_order.specs.Covering.{IsSettled, IsStale};
ghost use Rattle.causal_order.specs.Walks.{IsSameWalk, IsSmall, IsWalk, IsWalked};
ghost use Rattle.causal_order.specs.SessionClocks.Clocks.{AreSized, IsLearning};

use crate::bounds::{MAX_CLOCKS, MAX_EDGES};
use crate::graph::CausalGraph;
use crate::newer::{SourcedRead, any_known};
use crate::session_clocks::{Clocks, SessionTable, WriteIndex};
use history_model::Operation;
use std::alloc::{AllocError, Global};

/// A walk in which operations are taken one after another.
#[derive(Drop)]
pub(crate) struct LearningWalk {
    pub(crate) index: WriteIndex,
    pub(crate) clocks: Clocks,
    pub(crate) graph: CausalGraph,
}

/// What a walk finds.
#[derive(Drop)]
pub(crate) enum Walked {
    /// The graph, whose edges make each write that a completed read knows of come before the write of its
    /// value.
    Whole(CausalGraph),
    /// The read gives the value of an initial write, although it knows of the other write.
    Stale { write: u32, read: u32 },
    /// The edges or the clocks are more than their bounds allow.
    Beyond,
}

/// Walks along an order, and adds to the graph of what operations learn of at once what their reads know.
pub(crate) fn walk(
    alloc: Global,
    ops: &[Operation],
    table: &SessionTable,
    graph: CausalGraph,
    order: &[u32],
) -> Result<Walked, AllocError>
    requires learning { IsLearning ops.now table.now order.now }
    requires sessions { table.now.count < 2 ^ 32 }
    requires few { length graph.edges.items ≤ 2 * length ops.now }
    ensures { IfOk result (λ walked. IsWalked ops.now table.now order.now graph walked) }
{
    let mut walk = LearningWalk {
        index: WriteIndex::of(alloc, ops, table)?,
        clocks: Clocks::new(alloc, table, order)?,
        graph,
    };
    for turn in 0..order.len() as u32 {
        let place = order[turn as usize];
        if let Some(write) = walk.take(alloc, ops, table, place)? {
            return Ok(Walked::Stale { write, read: place });
        }
        walk.clocks.give_up(alloc, table, turn, place);
        if walk.is_beyond(table) {
            return Ok(Walked::Beyond);
        }
    }
    Ok(Walked::Whole(walk.graph))
}

impl LearningWalk {
    /// Takes an operation, the next one. If it is a read of an initial write's value that knows of a called
    /// write of its register, the place of such a one.
    fn take(
        &mut self,
        alloc: Global,
        ops: &[Operation],
        table: &SessionTable,
        place: u32,
    ) -> Result<Option<u32>, AllocError>
        requires walk { (order : List ℕ) × (turn : ℕ) × IsWalk ops.now table.now order turn None self.old
            × (slice_get order turn ≡ Some place) }
        requires sessions { table.now.count < 2 ^ 32 }
        ensures walk { OnOk result ((order : List ℕ) (turn : ℕ)
            → IsWalk ops.now table.now order turn None self.old → slice_get order turn ≡ Some place
            → IsWalk ops.now table.now order turn (Some place) self.new) }
        ensures graph { OnOk result (IsCausalGraph ops.now self.old.graph
            → IsCausalGraph ops.now self.new.graph) }
        ensures keeps { OnOk result (Keeps self.old.graph.edges.items self.new.graph.edges.items) }
        ensures longer { OnOk result (length self.new.graph.edges.items
            ≤ length self.old.graph.edges.items + table.now.count) }
        ensures found { IfOk result (λ found. MatchOption found
            (IsSettled ops.now table.now self.new.graph.edges.items place)
            (λ write. IsStale ops.now table.now write place)) }
    {
        self.clocks.take(alloc, table, place)?;
        let found = self.join_read(ops, table, place)?;
        Ok(found)
    }

    /// Adds what a read knows, if the operation that was taken is one. If it gives an initial write's value
    /// and knows of a called write of its register, the place of such a one.
    fn join_read(
        &mut self,
        ops: &[Operation],
        table: &SessionTable,
        place: u32,
    ) -> Result<Option<u32>, AllocError>
        requires walk { (order : List ℕ) × (turn : ℕ)
            × IsWalk ops.now table.now order turn (Some place) self.old
            × (slice_get order turn ≡ Some place) }
        requires sessions { table.now.count < 2 ^ 32 }
        ensures same { IsSameWalk self.old self.new }
        ensures graph { OnOk result (IsCausalGraph ops.now self.old.graph
            → IsCausalGraph ops.now self.new.graph) }
        ensures keeps { OnOk result (Keeps self.old.graph.edges.items self.new.graph.edges.items) }
        ensures longer { OnOk result (length self.new.graph.edges.items
            ≤ length self.old.graph.edges.items + table.now.count) }
        ensures found { IfOk result (λ found. MatchOption found
            (IsSettled ops.now table.now self.new.graph.edges.items place)
            (λ write. IsStale ops.now table.now write place)) }
    {
        let Some(source) = table.sources[place as usize] else {
            return Ok(None);
        };
        let register = ops[place as usize].register;
        let later = self.clocks.row(place);
        if ops[source as usize].process.is_none() {
            return Ok(any_known(&self.index, register, later));
        }
        let of = SourcedRead {
            register,
            source,
            read: place,
        };
        let earlier = self.clocks.row(source);
        self.graph.join_newer(&self.index, of, earlier, later)?;
        Ok(None)
    }

    /// Whether the edges or the clocks that are held are more than their bounds allow.
    fn is_beyond(&self, table: &SessionTable) -> bool
        ensures no { result ≡ false → IsSmall self.now.graph.edges.items }
        ensures yes { result ≡ true → AreSized table.now self.now.clocks
            → (2 ^ 25 < length self.now.graph.edges.items)
            ⊎ (2 ^ 26 < length table.now.numbers.items * table.now.count) }
    {
        let entries = u64::from(self.clocks.held()) * u64::from(table.count);
        self.graph.edges.len() > MAX_EDGES as usize || entries > MAX_CLOCKS
    }
}
