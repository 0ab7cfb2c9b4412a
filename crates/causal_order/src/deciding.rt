//! Whether a history is causal.
ghost use Rattle.std.specs.Prelude.{IfOk, Some, length, slice_get, ◌*◌, ◌≡◌, ◌≤◌, ◌<◌, ◌^◌, ℕ};
ghost use Rattle.level_laws.specs.Causal.{IsWhole};
ghost use Rattle.causal_order.specs.CausalGraph.{AreLearned, IsCausalGraph, IsTableOf};
ghost use Rattle.causal_order.specs.Decisions.{IsDecision};
ghost use Rattle.causal_order.specs.Walks.{AreAllSettled, IsSmall};
ghost use Rattle.causal_order.specs.SessionClocks.Clocks.{IsLearning};
ghost use Rattle.causal_order.specs.SessionClocks.Sessions.{IsCalledInOrder};

use crate::bounds::MAX_WORK;
use crate::decision::{CausalFault, CausalStep, Decision};
use crate::graph::CausalGraph;
use crate::learned::learned_graph;
use crate::listing::writes_in;
use crate::session_clocks::{SessionTable, session_table};
use crate::steps::{stale_steps, steps_of};
use crate::walk::{Walked, walk};
use history_model::Operation;
use reg_levels::order_graph::{Sorted, sort};
use std::alloc::{AllocError, Global};

/// Decides whether a history is causal, from all its operations: the initial writes, then the others by
/// call.
///
/// # Errors
/// If memory ran out.
pub fn decide(alloc: Global, ops: &[Operation]) -> Result<Decision, AllocError>
    requires whole { IsWhole ops.now }
    requires in_order { IsCalledInOrder ops.now }
    requires few { length ops.now < 2 ^ 22 }
    ensures { IfOk result (λ decision. IsDecision ops.now decision) }
{
    match session_table(alloc, ops)? {
        Err(read) => Ok(Decision::Broken(CausalFault::Unwritten { read })),
        Ok(table) => decision_by(alloc, ops, &table),
    }
}

/// Decides by the table of the sessions.
fn decision_by(
    alloc: Global,
    ops: &[Operation],
    table: &SessionTable,
) -> Result<Decision, AllocError>
    requires table { IsTableOf ops.now table.now }
    ensures { IfOk result (λ decision. IsDecision ops.now decision) }
{
    if u64::from(table.count) * ops.len() as u64 > MAX_WORK {
        return Ok(Decision::Unknown);
    }
    let graph = learned_graph(alloc, table)?;
    match sort(alloc, ops.len() as u32, &graph.edges)? {
        Sorted::Cycle(cycle) => Ok(broken(steps_of(alloc, table, &graph, &cycle)?)),
        Sorted::Order(order) => decision_along(alloc, ops, table, graph, &order),
    }
}

/// Decides by a walk along an order in which each operation comes after those that it learns of at once.
fn decision_along(
    alloc: Global,
    ops: &[Operation],
    table: &SessionTable,
    graph: CausalGraph,
    order: &[u32],
) -> Result<Decision, AllocError>
    requires table { IsTableOf ops.now table.now }
    requires sessions { table.now.count < 2 ^ 32 }
    requires learning { IsLearning ops.now table.now order.now }
    requires all { (p : ℕ) → p < length ops.now → (i : ℕ) × (slice_get order.now i ≡ Some p) }
    requires graph { IsCausalGraph ops.now graph }
    requires learned { AreLearned table.now (length ops.now) graph.edges.items }
    requires few { length graph.edges.items ≤ 2 * length ops.now }
    ensures { IfOk result (λ decision. IsDecision ops.now decision) }
{
    match walk(alloc, ops, table, graph, order)? {
        Walked::Beyond => Ok(Decision::Unknown),
        Walked::Stale { write, read } => Ok(broken(stale_steps(alloc, table, write, read)?)),
        Walked::Whole(graph) => decision_of(alloc, ops, table, &graph),
    }
}

/// Decides by the whole graph.
fn decision_of(
    alloc: Global,
    ops: &[Operation],
    table: &SessionTable,
    graph: &CausalGraph,
) -> Result<Decision, AllocError>
    requires table { IsTableOf ops.now table.now }
    requires graph { IsCausalGraph ops.now graph.now }
    requires learned { AreLearned table.now (length ops.now) graph.now.edges.items }
    requires settled { AreAllSettled ops.now table.now graph.now.edges.items }
    requires small { IsSmall graph.now.edges.items }
    ensures { IfOk result (λ decision. IsDecision ops.now decision) }
{
    match sort(alloc, ops.len() as u32, &graph.edges)? {
        Sorted::Cycle(cycle) => Ok(broken(steps_of(alloc, table, graph, &cycle)?)),
        Sorted::Order(order) => Ok(Decision::Causal(writes_in(alloc, ops, table, &order)?)),
    }
}

/// The answer that there is a cycle.
fn broken(steps: Vec<CausalStep>) -> Decision
    ensures { result ≡ Decision.Broken (CausalFault.Cycle steps) }
{
    Decision::Broken(CausalFault::Cycle(steps))
}
