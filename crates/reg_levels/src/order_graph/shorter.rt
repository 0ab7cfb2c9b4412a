//! A search for a short cycle, the nearest nodes first.
ghost use Rattle.std.specs.Prelude.{IfOk, IfSome, IsTrue, List, OnOk, [], length, slice_get, suc};
ghost use Rattle.std.specs.Prelude.{◌++◌, ◌∷◌, ◌≡◌, ◌≤◌, ◌<◌, ◌⊎◌, ℕ};
ghost use Rattle.reg_levels.specs.OrderGraph.Graph.{AreAmong, IsNodeCycle, HasEdge};
ghost use Rattle.reg_levels.specs.OrderGraph.Incoming.{AreIncoming};
ghost use Rattle.reg_levels.specs.OrderGraph.Shorter.{AreMet};
ghost use Rattle.reg_levels.specs.declared.order_graph.edge.Edge.{Edge as AnEdge};
ghost use Rattle.reg_levels.specs.declared.order_graph.shorter.MetNode.{MetNode as AMet};

use crate::order_graph::edge::Edge;
use crate::order_graph::incoming::Incoming;
use std::alloc::{AllocError, Global};

/// A node that a search met.
#[derive(Clone, Copy)]
pub(crate) struct MetNode {
    node: u32,
    /// The place of the node to which the edge leads by which it was met.
    by: u32,
}

/// A search back from a node.
#[derive(Drop)]
pub(crate) struct Search {
    /// Whether each node was met by an edge.
    seen: Vec<bool>,
    /// The nodes that were met, the first one first.
    met: Vec<MetNode>,
}

/// A cycle through a node with the fewest edges, as far as the search finds one.
pub(crate) fn shorter(
    alloc: Global,
    nodes: u32,
    edges: &[Edge],
    incoming: &Incoming,
    start: u32,
) -> Result<Option<Vec<u32>>, AllocError>
    requires among { AreAmong nodes edges.now }
    requires linked { AreIncoming nodes edges.now incoming.now }
    requires within { start < nodes }
    ensures { IfOk result (λ o. IfSome o (λ cycle. IsNodeCycle edges.now cycle.items)) }
{
    let mut search = Search {
        seen: vec![in alloc; false; nodes as usize]?,
        met: vec![in alloc; MetNode { node: start, by: 0 }]?,
    };
    for place in 0..nodes {
        if place as usize >= search.met.len() {
            return Ok(None);
        }
        if search.spread(edges, incoming, start, place)? {
            return Ok(Some(search.way_back(alloc, place)?));
        }
    }
    Ok(None)
}

impl Search {
    /// IsRound the nodes from which an edge leads to that at a place, until the start is one of them: then
    /// yes.
    fn spread(
        &mut self,
        edges: &[Edge],
        incoming: &Incoming,
        start: u32,
        place: u32,
    ) -> Result<bool, AllocError>
        requires among { AreAmong (length self.old.seen.items) edges.now }
        requires linked { AreIncoming (length self.old.seen.items) edges.now incoming.now }
        requires met { AreMet (length self.old.seen.items) edges.now start self.old.met.items }
        requires within { place < length self.old.met.items }
        ensures size { length self.new.seen.items ≡ length self.old.seen.items }
        ensures met { IfOk result
            (λ _. AreMet (length self.old.seen.items) edges.now start self.new.met.items) }
        ensures found { IfOk result (λ b. IsTrue b → (m : AMet)
            → slice_get self.new.met.items place ≡ Some m → HasEdge edges.now start m.node) }
        ensures longer { length self.old.met.items ≤ length self.new.met.items }
    {
        let node = self.met[place as usize].node;
        let mut number = incoming.first[node as usize] as usize;
        while number != 0 {
            let from = edges[number - 1].from;
            if from == start {
                return Ok(true);
            }
            self.meet(from, place)?;
            number = incoming.next[number - 1] as usize;
        }
        Ok(false)
    }

    /// Notes that a node was met, if it is the first time.
    fn meet(&mut self, node: u32, by: u32) -> Result<(), AllocError>
        requires within { node < length self.old.seen.items }
        ensures size { length self.new.seen.items ≡ length self.old.seen.items }
        ensures met { OnOk result ((self.new.met.items ≡ self.old.met.items)
            ⊎ (self.new.met.items ≡ self.old.met.items ++ record { node = node; by = by } ∷ [])) }
        ensures longer { length self.old.met.items ≤ length self.new.met.items }
    {
        if !self.seen[node as usize] {
            self.seen[node as usize] = true;
            self.met.push(MetNode { node, by })?;
        }
        Ok(())
    }

    /// The nodes from that at a place to that with which the search began.
    fn way_back(&self, alloc: Global, from: u32) -> Result<Vec<u32>, AllocError>
        requires within { from < length self.now.met.items }
        requires before { (i : ℕ) (m : AMet) → slice_get self.now.met.items (suc i) ≡ Some m
            → m.by < suc i }
        ensures { (nodes : ℕ) (edges : List AnEdge) (start : ℕ) (m : AMet)
            → AreMet nodes edges start self.now.met.items
            → slice_get self.now.met.items from ≡ Some m → HasEdge edges start m.node
            → IfOk result (λ cycle. IsNodeCycle edges cycle.items) }
    {
        let mut cycle = Vec::new(alloc);
        let mut place = from as usize;
        while place != 0 {
            let at = self.met[place];
            cycle.push(at.node)?;
            place = at.by as usize;
        }
        cycle.push(self.met[0].node)?;
        Ok(cycle)
    }
}
