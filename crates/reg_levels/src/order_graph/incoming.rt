//! The edges of a graph by the nodes at which they end.
ghost use Rattle.std.specs.Prelude.{All, IfOk, length, ◌<◌, ◌^◌, ℕ};
ghost use Rattle.reg_levels.specs.OrderGraph.Graph.{AreAmong};
ghost use Rattle.reg_levels.specs.OrderGraph.Incoming.{AreIncoming};

use crate::order_graph::edge::Edge;
use std::alloc::{AllocError, Global};

/// Lists of edges, one for each node, of the edges that end there. In a list an edge goes by its number
/// plus 1, and 0 is the end.
#[derive(Drop)]
pub(crate) struct Incoming {
    /// For each node the first of its list.
    pub(crate) first: Vec<u32>,
    /// For each edge the next one of the list that it is in, which has a lower number.
    pub(crate) next: Vec<u32>,
}

/// The lists of the edges, each with higher numbers first.
pub(crate) fn linked(alloc: Global, nodes: u32, edges: &[Edge]) -> Result<Incoming, AllocError>
    requires among { AreAmong nodes edges.now }
    requires few { length edges.now < 2 ^ 32 }
    ensures { IfOk result (λ incoming. AreIncoming nodes edges.now incoming) }
{
    let mut first = vec![in alloc; 0u32; nodes as usize]?;
    let mut next = Vec::with_capacity(alloc, edges.len())?;
    for edge in edges {
        let node = edge.to as usize;
        next.push(first[node])?;
        first[node] = next.len() as u32;
    }
    Ok(Incoming { first, next })
}
