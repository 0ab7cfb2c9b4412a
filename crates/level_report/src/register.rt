//! The line of one register.
ghost use Rattle.std.specs.Prelude.{◌≡◌, ◌<◌, length, true, false, Option, IfOk, IfSome};
ghost use Rattle.history_model.specs.Legal.{IsAtomic};
ghost use Rattle.history_model.specs.Operations.{IsHistory};
ghost use Rattle.reg_levels.specs.Clusters.Places.{AreFew, IsByCall};
ghost use Rattle.reg_levels.specs.Clusters.Table.{IsClusterTable};
ghost use Rattle.level_report.specs.Freshness.{IsFreshness};
ghost use Rattle.reg_levels.specs.Clusters.Places.{IsAt};
ghost use Rattle.reg_zones.specs.Faults.{IsFirstUnwritten};
ghost use Rattle.history_model.specs.declared.operation.Operation.{Operation as AnOperation};
ghost use Rattle.report_text.specs.declared.level.report.LevelName.{LevelName as ALevel};
ghost use Rattle.level_report.specs.Guarantees.{IsOrderFor, or_else};
ghost use Rattle.level_report.specs.Ordered.{IsOrdered, IsOrderedBy};
ghost use Rattle.level_report.specs.declared.settings.Asked.{Asked as AnAsked};
ghost use Rattle.level_report.specs.Judged.{IsJudgement};
ghost use Rattle.level_report.specs.Meaning.{IsRegisterLine};

use crate::called::called;
use crate::freshness::{clean_freshness, without_counts};
use crate::guarantees::{Guarantees, Ordered, guarantees_of, none_kept};
use crate::lines::line_of;
use crate::operations::operations_of;
use crate::order::order_lines;
use crate::settings::Asked;
use crate::sooner::atomic_order;
use history_model::{Operation, RegId};
use history_text::Name;
use reg_arena::Arena;
use reg_levels::clusters::{ClusterTable, cluster_table, first_early};
use report_text::level::{
    EarlyRead, Freshness, KeptGuarantees, LevelName, OrderLines, RegisterLevels,
};
use std::alloc::{AllocError, Global};

/// What is found of one register.
#[derive(Drop)]
struct Judgement {
    freshness: Freshness,
    guarantees: KeptGuarantees,
    order: Option<OrderLines>,
}

/// How old the values were that a register without unwritten reads gave.
fn freshness_of(
    alloc: Global,
    ops: &[Operation],
    table: &ClusterTable,
    stale: bool,
) -> Result<Freshness, AllocError>
    requires history { IsHistory ops.now }
    requires by_call { IsByCall ops.now }
    requires few { AreFew ops.now }
    requires table { IsClusterTable ops.now table.now.clusters.items table.now.numbers.items }
    ensures fresh { IfOk result (IsFreshness ops.now stale) }
    ensures atomic { IfOk result (λ f. f.atomic ≡ true → IsAtomic ops.now) }
{
    match first_early(ops, table) {
        Some((read, write)) => Ok(without_counts(
            None,
            Some(EarlyRead {
                read: line_of(ops, read),
                write: line_of(ops, write),
            }),
        )),
        None => clean_freshness(alloc, ops, table, stale),
    }
}

/// The clusters of a register in an order for the strongest level that holds, if one does; `weaker` is that
/// of the strongest below atomic.
fn strongest_order(
    alloc: Global,
    ops: &[Operation],
    table: &ClusterTable,
    atomic: bool,
    weaker: Option<Ordered>,
) -> Result<Option<Ordered>, AllocError>
    requires history { IsHistory ops.now }
    requires by_call { IsByCall ops.now }
    requires few { AreFew ops.now }
    requires table { IsClusterTable ops.now table.now.clusters.items table.now.numbers.items }
    requires atomic { atomic ≡ true → IsAtomic ops.now }
    ensures { IfOk result (λ o. (name : Option ALevel)
        → (atomic ≡ false → IsOrdered ops.now table.now.clusters.items name weaker)
        → IsOrdered ops.now table.now.clusters.items (or_else atomic LevelName.Atomic name) o) }
{
    match atomic {
        true => Ok(Some(Ordered {
            level: LevelName::Atomic,
            clusters: atomic_order(alloc, ops, table)?,
        })),
        false => Ok(weaker),
    }
}

/// An order of the clusters by lines, if there is one.
fn lines_if(
    alloc: Global,
    ops: &[Operation],
    table: &ClusterTable,
    ordered: Option<Ordered>,
) -> Result<Option<OrderLines>, AllocError>
    requires history { IsHistory ops.now }
    requires by_call { IsByCall ops.now }
    requires few { AreFew ops.now }
    requires table { IsClusterTable ops.now table.now.clusters.items table.now.numbers.items }
    requires ordered { IfSome ordered (IsOrderedBy ops.now table.now.clusters.items) }
    ensures { IfOk result (λ order. (name : Option ALevel)
        → IsOrdered ops.now table.now.clusters.items name ordered → IsOrderFor ops.now name order) }
{
    match ordered {
        Some(ordered) => Ok(Some(order_lines(alloc, ops, table, &ordered)?)),
        None => Ok(None),
    }
}

/// An order for the strongest level that holds, by lines, if it is asked for.
fn order_if(
    alloc: Global,
    ops: &[Operation],
    table: &ClusterTable,
    atomic: bool,
    weaker: Option<Ordered>,
) -> Result<Option<OrderLines>, AllocError>
    requires history { IsHistory ops.now }
    requires by_call { IsByCall ops.now }
    requires few { AreFew ops.now }
    requires table { IsClusterTable ops.now table.now.clusters.items table.now.numbers.items }
    requires atomic { atomic ≡ true → IsAtomic ops.now }
    requires weaker { atomic ≡ false → (name : Option ALevel)
        × IsOrdered ops.now table.now.clusters.items name weaker }
    ensures { IfOk result (λ order. (name : Option ALevel)
        → (atomic ≡ false → IsOrdered ops.now table.now.clusters.items name weaker)
        → IsOrderFor ops.now (or_else atomic LevelName.Atomic name) order) }
{
    let ordered = strongest_order(alloc, ops, table, atomic, weaker)?;
    lines_if(alloc, ops, table, ordered)
}

/// What is found of a register without unwritten reads.
fn judged_by(
    alloc: Global,
    ops: &[Operation],
    table: &ClusterTable,
    asked: Asked,
) -> Result<Judgement, AllocError>
    requires history { IsHistory ops.now }
    requires by_call { IsByCall ops.now }
    requires few { AreFew ops.now }
    requires table { IsClusterTable ops.now table.now.clusters.items table.now.numbers.items }
    ensures { IfOk result (IsJudgement ops.now asked) }
{
    let freshness = freshness_of(alloc, ops, table, asked.stale)?;
    let atomic = freshness.atomic;
    let Guarantees { kept, ordered } = guarantees_of(alloc, ops, table, atomic)?;
    let order = match asked.orders {
        true => order_if(alloc, ops, table, atomic, ordered)?,
        false => None,
    };
    Ok(Judgement {
        freshness,
        guarantees: kept,
        order,
    })
}

/// What is found of a register with a read whose value nobody wrote.
fn unwritten(ops: &[Operation], read: u32) -> Judgement
    requires history { IsHistory ops.now }
    requires read { (r : AnOperation) × IsAt ops.now read r × IsFirstUnwritten ops.now r }
    ensures { (asked : AnAsked) → IsJudgement ops.now asked result }
{
    let line = line_of(ops, read);
    Judgement {
        freshness: without_counts(Some(line), None),
        guarantees: none_kept(line),
        order: None,
    }
}

/// What is found of a register with these operations.
fn judged(alloc: Global, ops: &[Operation], asked: Asked) -> Result<Judgement, AllocError>
    requires history { IsHistory ops.now }
    requires by_call { IsByCall ops.now }
    requires few { AreFew ops.now }
    ensures { IfOk result (IsJudgement ops.now asked) }
{
    match cluster_table(alloc, ops)? {
        Ok(table) => judged_by(alloc, ops, &table, asked),
        Err(read) => Ok(unwritten(ops, read)),
    }
}

/// The line of a register.
///
/// # Errors
/// If memory runs out.
pub(crate) fn register_line(
    alloc: Global,
    arena: &Arena,
    register: RegId,
    asked: Asked,
) -> Result<RegisterLevels, AllocError>
    requires { register.0 < length arena.now.names }
    ensures { IfOk result (IsRegisterLine arena.now asked register.0) }
{
    let ops = operations_of(alloc, arena, register)?;
    let found = judged(alloc, &ops, asked)?;
    Ok(RegisterLevels {
        register: Name::new(alloc, arena.name(register))?,
        operations: called(&ops),
        freshness: found.freshness,
        guarantees: found.guarantees,
        order: found.order,
    })
}
