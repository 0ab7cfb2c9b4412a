//! The graph of a guarantee over a register's clusters.
ghost use Rattle.std.specs.Prelude.{OnOk, ◌≡◌, ◌++◌, ◌∷◌, []};
ghost use Rattle.reg_levels.specs.LevelGraph.{Joins, JoinsIf};

use crate::order_graph::Edge;
use std::alloc::{AllocError, Global};

/// Two operations, by their places, of which the first must come before the second.
#[derive(Clone, Copy)]
pub(crate) struct PlacePair {
    pub(crate) before: u32,
    pub(crate) after: u32,
}

/// The edges of a graph, and the pair behind each that joins two clusters.
#[derive(Drop)]
pub(crate) struct LevelGraph {
    pub(crate) edges: Vec<Edge>,
    pub(crate) pairs: Vec<PlacePair>,
}

impl LevelGraph {
    /// A graph without an edge.
    pub(crate) fn new(alloc: Global) -> Self
        ensures edges { result.edges.items ≡ [] }
        ensures pairs { result.pairs.items ≡ [] }
    {
        LevelGraph {
            edges: Vec::new(alloc),
            pairs: Vec::new(alloc),
        }
    }

    /// Adds an edge.
    pub(crate) fn join(&mut self, edge: Edge, pair: PlacePair) -> Result<(), AllocError>
        ensures { OnOk result (Joins edge pair self.old self.new) }
    {
        self.edges.push(edge)?;
        self.pairs.push(pair)?;
        Ok(())
    }

    /// Adds an edge, if it is wanted.
    pub(crate) fn join_if(
        &mut self,
        wanted: bool,
        edge: Edge,
        pair: PlacePair,
    ) -> Result<(), AllocError>
        ensures { OnOk result (JoinsIf wanted edge pair self.old self.new) }
    {
        if wanted {
            self.join(edge, pair)?;
        }
        Ok(())
    }
}
