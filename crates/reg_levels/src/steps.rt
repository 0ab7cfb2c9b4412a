//! The steps of a cycle of clusters, from a cycle of the graph.
ghost use Rattle.std.specs.Prelude.{IfOk, List, Option, length, slice_get, ◌≡◌, ◌<◌, ℕ};
ghost use Rattle.history_model.specs.Operations.{IsHistory};
ghost use Rattle.history_model.specs.declared.guarantee.Guarantee.{Guarantee};
ghost use Rattle.history_model.specs.declared.operation.Operation.{Operation as AnOperation};
ghost use Rattle.level_laws.specs.Evidence.{IsCycle, Link};
ghost use Rattle.level_laws.specs.Leads.{IsCleanFor};
ghost use Rattle.reg_levels.specs.OrderGraph.Graph.{IsEdgeCycle, IsPath};
ghost use Rattle.reg_levels.specs.declared.order_graph.edge.Edge.{Edge as AnEdge};
ghost use Rattle.reg_levels.specs.Clusters.Places.{IsByCall};
ghost use Rattle.reg_levels.specs.Clusters.Table.{IsClusterTable};
ghost use Rattle.reg_levels.specs.Decisions.{AreStepsOf};
ghost use Rattle.reg_levels.specs.LevelGraph.{AreWriteCalls, IsLevelGraph, IsStepBy, IsTurnedCycle};

use crate::clusters::ClusterEnds;
use crate::decision::Step;
use crate::graph::LevelGraph;
use std::alloc::{AllocError, Global};

/// The steps from cluster to cluster along a cycle of the graph's edges.
pub(crate) fn steps_of(
    alloc: Global,
    clusters: &[ClusterEnds],
    graph: &LevelGraph,
    cycle: &[u32],
) -> Result<Vec<Step>, AllocError>
    requires cycle { IsEdgeCycle graph.now.edges.items cycle.now }
    requires count { length graph.now.pairs.items ≡ length graph.now.edges.items }
    requires meets { (a : ℕ) → IsPath graph.now.edges.items a cycle.now a
        → (k : ℕ) × (i : ℕ) × (e : AnEdge) × (slice_get cycle.now i ≡ Some k)
        × (slice_get graph.now.edges.items k ≡ Some e) × (e.from < length clusters.now) }
    ensures { IfOk result (λ steps. (guarantee : Guarantee) (ops : List AnOperation)
        (numbers : List (Option ℕ)) (calls : List ℕ) → IsHistory ops
        → IsByCall ops → IsClusterTable ops clusters.now numbers → AreWriteCalls ops clusters.now calls
        → IsCleanFor guarantee ops → IsLevelGraph guarantee ops clusters.now numbers calls graph.now
        → (links : List Link) × AreStepsOf ops steps.items links × IsCycle guarantee ops links) }
{
    let turned = turned_to_cluster(alloc, clusters.len(), graph, cycle)?;
    steps_along(alloc, clusters, graph, &turned)
}

/// The cycle, begun with an edge from a cluster.
fn turned_to_cluster(
    alloc: Global,
    count: usize,
    graph: &LevelGraph,
    cycle: &[u32],
) -> Result<Vec<u32>, AllocError>
    requires cycle { IsEdgeCycle graph.now.edges.items cycle.now }
    requires meets { (a : ℕ) → IsPath graph.now.edges.items a cycle.now a
        → (k : ℕ) × (i : ℕ) × (e : AnEdge) × (slice_get cycle.now i ≡ Some k)
        × (slice_get graph.now.edges.items k ≡ Some e) × (e.from < count) }
    ensures { IfOk result (λ turned. IsTurnedCycle graph.now.edges.items count turned.items) }
{
    for place in 0..cycle.len() {
        let edge = graph.edges[cycle[place] as usize];
        if (edge.from as usize) < count {
            let mut turned = Vec::from_slice(alloc, &cycle[place..])?;
            turned.extend_from_slice(&cycle[..place])?;
            return Ok(turned);
        }
    }
    unreachable!()
}

/// The steps along a cycle that begins with an edge from a cluster.
fn steps_along(
    alloc: Global,
    clusters: &[ClusterEnds],
    graph: &LevelGraph,
    turned: &[u32],
) -> Result<Vec<Step>, AllocError>
    requires turned { IsTurnedCycle graph.now.edges.items (length clusters.now) turned.now }
    requires count { length graph.now.pairs.items ≡ length graph.now.edges.items }
    ensures { IfOk result (λ steps. (guarantee : Guarantee) (ops : List AnOperation)
        (numbers : List (Option ℕ)) (calls : List ℕ) → IsHistory ops
        → IsByCall ops → IsClusterTable ops clusters.now numbers → AreWriteCalls ops clusters.now calls
        → IsCleanFor guarantee ops → IsLevelGraph guarantee ops clusters.now numbers calls graph.now
        → (links : List Link) × AreStepsOf ops steps.items links × IsCycle guarantee ops links) }
{
    let mut steps = Vec::new(alloc);
    let mut at = graph.edges[turned[0] as usize].from;
    for number in turned {
        let edge = graph.edges[*number as usize];
        if (edge.to as usize) < clusters.len() {
            steps.push(step_by(clusters, graph, *number, at))?;
            at = edge.to;
        }
    }
    Ok(steps)
}

/// The step to the cluster where an edge ends, from the one that was left last.
fn step_by(clusters: &[ClusterEnds], graph: &LevelGraph, number: u32, from: u32) -> Step
    requires edge { number < length graph.now.edges.items }
    requires count { length graph.now.pairs.items ≡ length graph.now.edges.items }
    requires from { from < length clusters.now }
    requires to { (e : AnEdge) → slice_get graph.now.edges.items number ≡ Some e
        → e.to < length clusters.now }
    ensures { IsStepBy clusters.now graph.now number from result }
{
    let edge = graph.edges[number as usize];
    let pair = graph.pairs[number as usize];
    let left = clusters[from as usize];
    if (edge.from as usize) < clusters.len() {
        Step {
            write: left.write,
            before: pair.before,
            after: pair.after,
        }
    } else {
        Step {
            write: left.write,
            before: left.first,
            after: clusters[edge.to as usize].write,
        }
    }
}
