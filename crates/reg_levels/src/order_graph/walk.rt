//! A walk back along the edges, which places each node behind all that it can be reached from.
ghost use Rattle.std.specs.Prelude.{IfNone, IfOk, IfSome, List, OnOk, length, slice_get, ◌≡◌, ◌<◌, ℕ};
ghost use Rattle.reg_levels.specs.OrderGraph.Graph.{AreAmong, IsNodeCycle};
ghost use Rattle.reg_levels.specs.OrderGraph.Incoming.{AreIncoming};
ghost use Rattle.reg_levels.specs.OrderGraph.GraphWalk.{Closes, Enters, KeepsMet, IsGraphWalk, IsRound};
ghost use Rattle.reg_levels.specs.OrderGraph.GraphWalk.{work_left};
ghost use Rattle.reg_levels.specs.declared.order_graph.edge.Edge.{Edge as AnEdge};
ghost use Rattle.reg_levels.specs.declared.order_graph.walk.NodeMark.TheVariants.{New, Open};

use crate::order_graph::edge::Edge;
use crate::order_graph::incoming::Incoming;
use std::alloc::{AllocError, Global};

/// How far a walk has come with a node.
#[derive(Clone, Copy, PartialEq, Eq)]
pub(crate) enum NodeMark {
    /// It was not met.
    New,
    /// It is on the path.
    Open,
    /// It is placed.
    Done,
}

/// Where a walk stands.
#[derive(Drop)]
pub(crate) struct GraphWalk {
    /// For each node the first edge that ends there and wasn't followed yet, by its number plus 1; 0 if all
    /// were.
    ahead: Vec<u32>,
    marks: Vec<NodeMark>,
    /// From each node but the first an edge leads to the one before it.
    path: Vec<u32>,
    /// The nodes that are placed, each behind all from which an edge leads to it.
    placed: Vec<u32>,
}

impl GraphWalk {
    /// A walk that has met no node.
    pub(crate) fn new(alloc: Global, nodes: u32, incoming: &Incoming) -> Result<Self, AllocError>
        ensures size { IfOk result (λ walk. length walk.marks.items ≡ nodes) }
        ensures walk { (edges : List AnEdge) → AreIncoming nodes edges incoming.now
            → IfOk result (λ walk. IsGraphWalk edges walk) }
        ensures path { IfOk result (λ walk. length walk.path.items ≡ 0) }
    {
        Ok(GraphWalk {
            ahead: Vec::from_slice(alloc, incoming.first.as_slice())?,
            marks: vec![in alloc; NodeMark::New; nodes as usize]?,
            path: Vec::new(alloc),
            placed: Vec::with_capacity(alloc, nodes as usize)?,
        })
    }

    /// Walks back from a node until all that it can be reached from is placed, or until an edge closes a
    /// cycle: then the node on the path from which it leads.
    pub(crate) fn visit(
        &mut self,
        node: u32,
        edges: &[Edge],
        incoming: &Incoming,
    ) -> Result<Option<u32>, AllocError>
        requires walk { IsGraphWalk edges.now self.old }
        requires among { AreAmong (length self.old.marks.items) edges.now }
        requires linked { AreIncoming (length self.old.marks.items) edges.now incoming.now }
        requires within { node < length self.old.marks.items }
        requires path { length self.old.path.items ≡ 0 }
        ensures goes { IfOk result (λ o. KeepsMet self.old self.new) }
        ensures ends { IfOk result (λ o. IfNone o (IsGraphWalk edges.now self.new
            × (length self.new.path.items ≡ 0) × (slice_get self.new.marks.items node ≡ Some New → ⊥))) }
        ensures meets { IfOk result (λ o. IfSome o (λ v. (v < length self.new.marks.items)
            × IsRound edges.now v self.new.path.items)) }
    {
        self.enter(node)?;
        while !self.path.is_empty() {
            if let Some(met) = self.turn(edges, incoming)? {
                return Ok(Some(met));
            }
        }
        Ok(None)
    }

    /// Follows one edge back from the end of the path, or places the node there if none is left. If the edge
    /// leads from a node of the path, nothing changes, and that node is the answer.
    fn turn(&mut self, edges: &[Edge], incoming: &Incoming) -> Result<Option<u32>, AllocError>
        requires walk { IsGraphWalk edges.now self.old }
        requires among { AreAmong (length self.old.marks.items) edges.now }
        requires linked { AreIncoming (length self.old.marks.items) edges.now incoming.now }
        requires path { 0 < length self.old.path.items }
        ensures goes { IfOk result (λ o. KeepsMet self.old self.new) }
        ensures walk { IfOk result (λ o. IfNone o (IsGraphWalk edges.now self.new)) }
        ensures less { IfOk result (λ o. IfNone o (work_left self.new < work_left self.old)) }
        ensures meets { IfOk result (λ o. IfSome o (λ v. (v < length self.new.marks.items)
            × IsRound edges.now v self.new.path.items)) }
    {
        let end = self.path[self.path.len() - 1] as usize;
        let number = self.ahead[end] as usize;
        if number == 0 {
            self.close()?;
            return Ok(None);
        }
        let from = edges[number - 1].from;
        if self.marks[from as usize] == NodeMark::Open {
            return Ok(Some(from));
        }
        self.enter(from)?;
        self.ahead[end] = incoming.next[number - 1];
        Ok(None)
    }

    /// Puts a node at the end of the path, if it is new.
    fn enter(&mut self, node: u32) -> Result<(), AllocError>
        requires within { node < length self.old.marks.items }
        requires apart { slice_get self.old.marks.items node ≡ Some Open → ⊥ }
        ensures { OnOk result (Enters node self.old self.new) }
    {
        if self.marks[node as usize] == NodeMark::New {
            self.marks[node as usize] = NodeMark::Open;
            self.path.push(node)?;
        }
        Ok(())
    }

    /// Places the node at the end of the path.
    fn close(&mut self) -> Result<(), AllocError>
        requires path { 0 < length self.old.path.items }
        requires within { (i v : ℕ) → slice_get self.old.path.items i ≡ Some v
            → v < length self.old.marks.items }
        ensures { OnOk result ((v : ℕ) × Closes v self.old self.new) }
    {
        if let Some(node) = self.path.pop() {
            self.marks[node as usize] = NodeMark::Done;
            self.placed.push(node)?;
        }
        Ok(())
    }

    /// The path from its end back to a node of it.
    pub(crate) fn cycle_to(&self, alloc: Global, node: u32) -> Result<Vec<u32>, AllocError>
        requires there { (i : ℕ) × (slice_get self.now.path.items i ≡ Some node) }
        ensures { (edges : List AnEdge) → IsRound edges node self.now.path.items
            → IfOk result (λ cycle. IsNodeCycle edges cycle.items) }
    {
        let mut cycle = Vec::new(alloc);
        for place in (0..self.path.len()).rev() {
            let at = self.path[place];
            cycle.push(at)?;
            if at == node {
                return Ok(cycle);
            }
        }
        unreachable!()
    }

    /// The nodes that are placed.
    pub(crate) fn into_placed(self) -> Vec<u32>
        ensures { result.items ≡ self.placed.items }
    {
        self.placed
    }
}
