//! The edges along a cycle of nodes.
ghost use Rattle.std.specs.Prelude.{IfOk, length, ◌<◌, ◌^◌};
ghost use Rattle.reg_levels.specs.OrderGraph.Graph.{AreAmong, HasEdge, IsEdgeCycle, IsEdgeOf, IsNodeCycle};
ghost use Rattle.reg_levels.specs.OrderGraph.Incoming.{AreIncoming};

use crate::order_graph::edge::Edge;
use crate::order_graph::incoming::Incoming;
use std::alloc::{AllocError, Global};

/// The numbers of the edges from each node to the next, and from the last to the first.
pub(crate) fn edges_along(
    alloc: Global,
    edges: &[Edge],
    incoming: &Incoming,
    cycle: &[u32],
) -> Result<Vec<u32>, AllocError>
    requires linked { AreIncoming (length incoming.now.first.items) edges.now incoming.now }
    requires among { AreAmong (length incoming.now.first.items) edges.now }
    requires few { length edges.now < 2 ^ 32 }
    requires cycle { IsNodeCycle edges.now cycle.now }
    ensures { IfOk result (λ numbers. IsEdgeCycle edges.now numbers.items) }
{
    let mut numbers = Vec::new(alloc);
    for place in 1..cycle.len() {
        numbers.push(edge_between(edges, incoming, cycle[place - 1], cycle[place]))?;
    }
    let last = cycle[cycle.len() - 1];
    numbers.push(edge_between(edges, incoming, last, cycle[0]))?;
    Ok(numbers)
}

/// The number of an edge from a node to another.
fn edge_between(edges: &[Edge], incoming: &Incoming, from: u32, to: u32) -> u32
    requires linked { AreIncoming (length incoming.now.first.items) edges.now incoming.now }
    requires among { AreAmong (length incoming.now.first.items) edges.now }
    requires few { length edges.now < 2 ^ 32 }
    requires there { HasEdge edges.now from to }
    ensures { IsEdgeOf edges.now from to result }
{
    let mut number = incoming.first[to as usize] as usize;
    while number != 0 {
        if edges[number - 1].from == from {
            return (number - 1) as u32;
        }
        number = incoming.next[number - 1] as usize;
    }
    unreachable!()
}
