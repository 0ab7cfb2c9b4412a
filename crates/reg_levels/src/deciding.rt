//! Whether a register gives a guarantee.
ghost use Rattle.std.specs.Prelude.{IfOk, length, nat_lt, ◌≡◌, ◌≤◌, ◌*◌};
ghost use Rattle.std.specs.List.{filter};
ghost use Rattle.history_model.specs.Operations.{IsHistory};
ghost use Rattle.reg_levels.specs.Clusters.Places.{AreFew, IsByCall};
ghost use Rattle.reg_levels.specs.Clusters.Table.{IsClusterTable};
ghost use Rattle.reg_levels.specs.Decisions.{IsDecision};
ghost use Rattle.reg_levels.specs.LevelGraph.{IsWholeGraph};
ghost use Rattle.reg_levels.specs.Levels.{IsOfSessions};

use crate::chain::write_calls;
use crate::clusters::ClusterTable;
use crate::decision::{Decision, LevelFault};
use crate::early::first_too_early;
use crate::graph::LevelGraph;
use crate::order_graph::{Sorted, sort};
use crate::steps::steps_of;
use history_model::{Guarantee, Operation};
use std::alloc::{AllocError, Global};

/// Decides whether a register gives a guarantee of sessions (`Session`, `OwnWrites`, `Monotonic` or
/// `Sequential`), from its operations by call and the table of its clusters. It fails only if memory runs
/// out.
pub fn decide(
    alloc: Global,
    ops: &[Operation],
    table: &ClusterTable,
    guarantee: Guarantee,
) -> Result<Decision, AllocError>
    requires history { IsHistory ops.now }
    requires by_call { IsByCall ops.now }
    requires few { AreFew ops.now }
    requires table { IsClusterTable ops.now table.now.clusters.items table.now.numbers.items }
    requires sessions { IsOfSessions guarantee }
    ensures { IfOk result (λ decision. IsDecision guarantee ops.now table.now.clusters.items decision) }
{
    if let Some((read, write)) = first_too_early(ops, table, guarantee) {
        return Ok(Decision::Broken(LevelFault::Early { read, write }));
    }
    let graph = level_graph(alloc, ops, table, guarantee)?;
    let count = table.clusters.len() as u32;
    match sort(alloc, 2 * count, &graph.edges)? {
        Sorted::Order(order) => Ok(Decision::Kept(clusters_in(alloc, count, &order)?)),
        Sorted::Cycle(cycle) => {
            let steps = steps_of(alloc, &table.clusters, &graph, &cycle)?;
            Ok(Decision::Broken(LevelFault::Cycle(steps)))
        }
    }
}

/// The graph of the guarantee.
fn level_graph(
    alloc: Global,
    ops: &[Operation],
    table: &ClusterTable,
    guarantee: Guarantee,
) -> Result<LevelGraph, AllocError>
    requires history { IsHistory ops.now }
    requires by_call { IsByCall ops.now }
    requires few { AreFew ops.now }
    requires table { IsClusterTable ops.now table.now.clusters.items table.now.numbers.items }
    requires sessions { IsOfSessions guarantee }
    ensures few { IfOk result (λ graph. length graph.edges.items ≤ 5 * length ops.now) }
    ensures graph { IfOk result (λ graph. IsWholeGraph guarantee ops.now table.now.clusters.items
        table.now.numbers.items graph) }
{
    let mut graph = LevelGraph::new(alloc);
    graph.add_initial(ops, table)?;
    graph.add_sessions(alloc, ops, &table.numbers, guarantee)?;
    let calls = write_calls(alloc, ops, table)?;
    graph.add_times(guarantee, &table.clusters, &calls)?;
    Ok(graph)
}

/// The clusters among the nodes of an order, in that order.
fn clusters_in(alloc: Global, count: u32, order: &[u32]) -> Result<Vec<u32>, AllocError>
    ensures { IfOk result (λ clusters. clusters.items ≡ filter (λ k. nat_lt k count) order.now) }
{
    order
        .iter()
        .copied()
        .filter(|node| *node < count)
        .collect(alloc)
}
