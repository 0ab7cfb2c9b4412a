//! An order of the nodes, or a cycle.
ghost use Rattle.std.specs.Prelude.{IfOk, length, ◌<◌, ◌^◌};
ghost use Rattle.reg_levels.specs.OrderGraph.Graph.{AreAmong, IsSorted};

use crate::order_graph::along::edges_along;
use crate::order_graph::edge::Edge;
use crate::order_graph::incoming::linked;
use crate::order_graph::shorter::shorter;
use crate::order_graph::walk::GraphWalk;
use std::alloc::{AllocError, Global};

/// What the edges allow.
#[derive(Debug, Drop, PartialEq)]
pub enum Sorted {
    /// Each node once, and each edge from a node to a later one.
    Order(Vec<u32>),
    /// The numbers of edges, each of which begins where the one before it ends, and the first where the
    /// last does.
    Cycle(Vec<u32>),
}

/// Sorts the nodes below a count by the edges between them, of which there are fewer than 2^32: an order in
/// which each edge goes forward, or a cycle. It fails only if memory runs out.
pub fn sort(alloc: Global, nodes: u32, edges: &[Edge]) -> Result<Sorted, AllocError>
    requires among { AreAmong nodes edges.now }
    requires few { length edges.now < 2 ^ 32 }
    ensures { IfOk result (λ sorted. IsSorted nodes edges.now sorted) }
{
    let incoming = linked(alloc, nodes, edges)?;
    let mut walk = GraphWalk::new(alloc, nodes, &incoming)?;
    for node in 0..nodes {
        if let Some(met) = walk.visit(node, edges, &incoming)? {
            let found = walk.cycle_to(alloc, met)?;
            let short = shorter(alloc, nodes, edges, &incoming, met)?;
            let cycle = short.unwrap_or(found);
            return Ok(Sorted::Cycle(edges_along(alloc, edges, &incoming, &cycle)?));
        }
    }
    Ok(Sorted::Order(walk.into_placed()))
}
