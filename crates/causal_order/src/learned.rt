//! The edges from what each operation learns of at once.
ghost use Rattle.std.specs.Prelude.{IfOk, List, length, ◌≡◌, ◌≤◌, ◌*◌, ◌<◌, ◌^◌};
ghost use Rattle.causal_order.specs.CausalGraph.{AreLearned, IsCausalGraph};
ghost use Rattle.history_model.specs.declared.operation.Operation.{Operation as AnOperation};
ghost use Rattle.causal_order.specs.SessionClocks.Sessions.{IsCalledInOrder, IsSessionTable};

use crate::graph::{CausalGraph, EdgeReason};
use crate::session_clocks::SessionTable;
use std::alloc::{AllocError, Global};

/// The graph of what each operation learns of at once.
pub(crate) fn learned_graph(alloc: Global, table: &SessionTable) -> Result<CausalGraph, AllocError>
    requires places { length table.now.sources.items ≡ length table.now.previous.items }
    requires few { length table.now.previous.items < 2 ^ 22 }
    ensures graph { IfOk result (λ graph. (ops : List AnOperation) → IsCalledInOrder ops
        → IsSessionTable ops table.now → IsCausalGraph ops graph) }
    ensures learned { IfOk result (λ graph. AreLearned table.now (length table.now.previous.items)
        graph.edges.items) }
    ensures few { IfOk result (λ graph. length graph.edges.items
        ≤ 2 * length table.now.previous.items) }
{
    let mut graph = CausalGraph::new(alloc);
    for place in 0..table.previous.len() as u32 {
        graph.join_from(table.previous[place as usize], place, EdgeReason::Session)?;
        graph.join_from(table.sources[place as usize], place, EdgeReason::Source)?;
    }
    Ok(graph)
}
