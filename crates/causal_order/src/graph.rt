//! The graph of what comes before what. Its nodes are the places of the operations.
ghost use Rattle.std.specs.Prelude.{List, OnOk, [], length, ◌++◌, ◌≡◌, ◌∷◌, ◌≤◌, ◌+◌, ℕ};
ghost use Rattle.causal_order.specs.CausalGraph.{IsBehind, IsCausalGraph, Joins, Keeps};
ghost use Rattle.reg_levels.specs.OrderGraph.Graph.{HasEdge};
ghost use Rattle.history_model.specs.declared.operation.Operation.{Operation as AnOperation};

use reg_levels::order_graph::Edge;
use std::alloc::{AllocError, Global};

/// Why an edge leads from an operation to another.
#[derive(Clone, Copy)]
pub(crate) enum EdgeReason {
    /// The one is what the session of the other called last before it.
    Session,
    /// The other is a completed read of the value that the one wrote.
    Source,
    /// The read gives the value of the other, although it knows of the one.
    Known { read: u32 },
}

/// The edges of a graph, and why each is there.
#[derive(Drop)]
pub(crate) struct CausalGraph {
    pub(crate) edges: Vec<Edge>,
    pub(crate) reasons: Vec<EdgeReason>,
}

impl CausalGraph {
    /// A graph without an edge.
    pub(crate) fn new(alloc: Global) -> Self
        ensures edges { result.edges.items ≡ [] }
        ensures reasons { result.reasons.items ≡ [] }
    {
        CausalGraph {
            edges: Vec::new(alloc),
            reasons: Vec::new(alloc),
        }
    }

    /// Adds an edge.
    pub(crate) fn join(&mut self, edge: Edge, reason: EdgeReason) -> Result<(), AllocError>
        ensures { OnOk result (Joins edge reason self.old self.new) }
    {
        self.edges.push(edge)?;
        self.reasons.push(reason)?;
        Ok(())
    }

    /// Adds an edge from an operation, if there is one.
    pub(crate) fn join_from(
        &mut self,
        from: Option<u32>,
        to: u32,
        reason: EdgeReason,
    ) -> Result<(), AllocError>
        ensures graph { OnOk result ((ops : List AnOperation) → IsCausalGraph ops self.old
            → ((a : ℕ) → from ≡ Some a → IsBehind ops a to reason) → IsCausalGraph ops self.new) }
        ensures keeps { OnOk result (Keeps self.old.edges.items self.new.edges.items) }
        ensures reaches { OnOk result ((a : ℕ) → from ≡ Some a → HasEdge self.new.edges.items a to) }
        ensures longer { OnOk result (length self.new.edges.items ≤ length self.old.edges.items + 1) }
    {
        if let Some(from) = from {
            self.join(Edge { from, to }, reason)?;
        }
        Ok(())
    }
}
