//! Orders of a register's operations, by lines.
ghost use Rattle.std.specs.Prelude.{◌≡◌, ◌++◌, ◌∷◌, [], IfOk, OnOk};
ghost use Rattle.history_model.specs.Operations.{IsHistory};
ghost use Rattle.reg_levels.specs.Clusters.Places.{AreFew, IsByCall};
ghost use Rattle.reg_levels.specs.Clusters.Table.{IsClusterTable};
ghost use Rattle.reg_levels.specs.Decisions.{operations_of_places};
ghost use Rattle.level_report.specs.Guarantees.{lines_of, KeepsLevel};
ghost use Rattle.level_report.specs.Ordered.{IsOrderedBy};

use crate::guarantees::Ordered;
use history_model::Operation;
use reg_levels::clusters::ClusterTable;
use reg_levels::order_of;
use report_text::level::OrderLines;
use std::alloc::{AllocError, Global};

/// Adds the line of the operation at a place, if somebody called it.
fn add_line(lines: &mut Vec<u32>, ops: &[Operation], place: u32) -> Result<(), AllocError>
    ensures { OnOk result
        (lines.new.items ≡ lines.old.items ++ lines_of (operations_of_places ops.now (place ∷ []))) }
{
    if let Some(op) = ops.get(place as usize)
        && op.process.is_some()
    {
        lines.push(op.line)?;
    }
    Ok(())
}

/// The lines of the operations at these places, without the initial write.
pub(crate) fn called_lines(
    alloc: Global,
    ops: &[Operation],
    places: &[u32],
) -> Result<Vec<u32>, AllocError>
    ensures { IfOk result (λ lines. lines.items ≡ lines_of (operations_of_places ops.now places.now)) }
{
    let mut lines = Vec::with_capacity(alloc, places.len())?;
    for place in places {
        add_line(&mut lines, ops, *place)?;
    }
    Ok(lines)
}

/// An order that keeps a level, from its order of the clusters.
pub(crate) fn order_lines(
    alloc: Global,
    ops: &[Operation],
    table: &ClusterTable,
    ordered: &Ordered,
) -> Result<OrderLines, AllocError>
    requires history { IsHistory ops.now }
    requires by_call { IsByCall ops.now }
    requires few { AreFew ops.now }
    requires table { IsClusterTable ops.now table.now.clusters.items table.now.numbers.items }
    requires ordered { IsOrderedBy ops.now table.now.clusters.items ordered.now }
    ensures level { IfOk result (λ order. order.level ≡ ordered.now.level) }
    ensures keeps { IfOk result (λ order. KeepsLevel ops.now ordered.now.level order.lines.items) }
{
    let places = order_of(alloc, ops, table, &ordered.clusters)?;
    Ok(OrderLines {
        level: ordered.level,
        lines: called_lines(alloc, ops, &places)?,
    })
}
