//! The steps of a cycle of the graph.
ghost use Rattle.std.specs.Prelude.{IfOk, List, Some, length, slice_get, ◌≡◌, ℕ};
ghost use Rattle.level_laws.specs.CausalFault.{IsCausalCycle, Step};
ghost use Rattle.causal_order.specs.CausalGraph.{IsCausalGraph, IsTableOf};
ghost use Rattle.causal_order.specs.Covering.{IsStale};
ghost use Rattle.causal_order.specs.Decisions.{IsCycleOf};
ghost use Rattle.causal_order.specs.Ways.{IsReadWithin, IsShownWhy};
ghost use Rattle.causal_order.specs.declared.graph.EdgeReason.{EdgeReason as AReason};
ghost use Rattle.history_model.specs.declared.operation.Operation.{Operation as AnOperation};
ghost use Rattle.reg_levels.specs.OrderGraph.Graph.{IsEdgeCycle};
ghost use Rattle.causal_order.specs.SessionClocks.Clocks.{IsTableInRange};

use crate::decision::{CausalStep, Why};
use crate::graph::{CausalGraph, EdgeReason};
use crate::knew::KnewSearch;
use crate::session_clocks::SessionTable;
use std::alloc::{AllocError, Global};

/// The steps along a cycle of the graph's edges.
pub(crate) fn steps_of(
    alloc: Global,
    table: &SessionTable,
    graph: &CausalGraph,
    cycle: &[u32],
) -> Result<Vec<CausalStep>, AllocError>
    requires range { IsTableInRange table.now }
    requires cycle { IsEdgeCycle graph.now.edges.items cycle.now }
    requires count { length graph.now.reasons.items ≡ length graph.now.edges.items }
    requires within { (k : ℕ) (reason : AReason) → slice_get graph.now.reasons.items k ≡ Some reason
        → IsReadWithin (length table.now.previous.items) reason }
    ensures { IfOk result (λ shown. (ops : List AnOperation) → IsTableOf ops table.now
        → IsCausalGraph ops graph.now
        → (steps : List Step) × IsCycleOf ops shown.items steps × IsCausalCycle ops steps) }
{
    let mut search = KnewSearch::new(alloc, table)?;
    let mut steps = Vec::with_capacity(alloc, cycle.len())?;
    for number in cycle {
        let edge = graph.edges[*number as usize];
        let reason = graph.reasons[*number as usize];
        let why = why_of(alloc, table, &mut search, edge.from, reason)?;
        steps.push(CausalStep {
            from: edge.from,
            to: edge.to,
            why,
        })?;
    }
    Ok(steps)
}

/// What an edge from an operation says.
fn why_of(
    alloc: Global,
    table: &SessionTable,
    search: &mut KnewSearch,
    from: u32,
    reason: EdgeReason,
) -> Result<Why, AllocError>
    requires range { IsTableInRange table.now }
    requires stamps { length search.old.stamps.items ≡ length table.now.previous.items }
    requires within { IsReadWithin (length table.now.previous.items) reason }
    ensures stamps { length search.new.stamps.items ≡ length search.old.stamps.items }
    ensures shown { IfOk result (λ why. IsShownWhy table.now from reason why) }
{
    let why = match reason {
        EdgeReason::Session => Why::Process,
        EdgeReason::Source => Why::Read,
        EdgeReason::Known { read } => {
            let knew = search.knew(alloc, table, from, read)?;
            Why::Hidden { read, knew }
        }
    };
    Ok(why)
}

/// The cycle of a read that gives an initial write's value although it knows of the write at a place.
pub(crate) fn stale_steps(
    alloc: Global,
    table: &SessionTable,
    write: u32,
    read: u32,
) -> Result<Vec<CausalStep>, AllocError>
    requires stale { (ops : List AnOperation) × IsTableOf ops table.now × IsStale ops table.now write read }
    ensures { IfOk result (λ shown. (ops : List AnOperation) → IsTableOf ops table.now
        → IsStale ops table.now write read
        → (steps : List Step) × IsCycleOf ops shown.items steps × IsCausalCycle ops steps) }
{
    let mut steps = Vec::with_capacity(alloc, 2)?;
    let Some(source) = table.sources[read as usize] else {
        unreachable!()
    };
    let knew = KnewSearch::new(alloc, table)?.knew(alloc, table, write, read)?;
    steps.push(CausalStep {
        from: write,
        to: source,
        why: Why::Hidden { read, knew },
    })?;
    steps.push(CausalStep {
        from: source,
        to: write,
        why: Why::Initial,
    })?;
    Ok(steps)
}
