//! The guarantees weaker than atomic that a register kept, by lines.
ghost use Rattle.std.specs.Prelude.{◌≡◌, map, cond, true, false, None, IfOk};
ghost use Rattle.history_model.specs.Legal.{IsAtomic};
ghost use Rattle.history_model.specs.Operations.{IsHistory};
ghost use Rattle.level_laws.specs.Evidence.{Evidence};
ghost use Rattle.reg_levels.specs.Clusters.Places.{AreFew, IsByCall};
ghost use Rattle.reg_levels.specs.Clusters.Table.{IsClusterTable};
ghost use Rattle.reg_levels.specs.Decisions.{IsFaultOf};
ghost use Rattle.reg_levels.specs.Levels.{IsOfSessions};
ghost use Rattle.level_report.specs.Guarantees.{AreGuarantees, ShowsEvidence, strongest};
ghost use Rattle.level_report.specs.Lines.{line_of as line_at, step_of};
ghost use Rattle.level_report.specs.Ordered.{every_guarantee, guarantees_found, no_guarantee};
ghost use Rattle.level_report.specs.Ordered.{ordered_or as is_ordered_or, IsFound, IsOrdered};

use crate::lines::line_of;
use history_model::{Guarantee, Operation};
use reg_levels::clusters::ClusterTable;
use reg_levels::{Decision, LevelFault, Step, decide};
use report_text::level::{FaultLines, KeptGuarantees, LevelName};
use std::alloc::{AllocError, Global};

/// What is found of one guarantee: whether it was kept; why not; and else the clusters in an order that
/// keeps it.
#[derive(Drop)]
struct Found {
    kept: bool,
    fault: Option<FaultLines>,
    clusters: Option<Vec<u32>>,
}

/// The clusters of a register in an order that keeps a level.
#[derive(Drop)]
pub(crate) struct Ordered {
    pub(crate) level: LevelName,
    pub(crate) clusters: Vec<u32>,
}

/// What is found of the guarantees of a register, with the clusters in an order for the strongest of them.
#[derive(Drop)]
pub(crate) struct Guarantees {
    pub(crate) kept: KeptGuarantees,
    pub(crate) ordered: Option<Ordered>,
}

/// The steps of a cycle, by lines.
fn step_lines(
    alloc: Global,
    ops: &[Operation],
    steps: &[Step],
) -> Result<Vec<(u32, u32)>, AllocError>
    ensures { IfOk result (λ lines. lines.items ≡ map (step_of ops.now) steps.now) }
{
    steps
        .iter()
        .map(|step| (line_of(ops, step.before), line_of(ops, step.after)))
        .collect(alloc)
}

/// The writes of a cycle, by lines.
fn write_lines(alloc: Global, ops: &[Operation], steps: &[Step]) -> Result<Vec<u32>, AllocError>
    ensures { IfOk result (λ lines. lines.items ≡ map (λ step. line_at ops.now step.write) steps.now) }
{
    steps
        .iter()
        .map(|step| line_of(ops, step.write))
        .collect(alloc)
}

/// Why a guarantee wasn't kept, by lines.
fn fault_lines(
    alloc: Global,
    ops: &[Operation],
    fault: &LevelFault,
) -> Result<FaultLines, AllocError>
    ensures { IfOk result (λ lines. (e : Evidence) → IsFaultOf ops.now fault.now e → ShowsEvidence e lines) }
{
    match fault {
        LevelFault::Unwritten { read } => Ok(FaultLines::Unwritten {
            read: line_of(ops, *read),
        }),
        LevelFault::Early { read, write } => Ok(FaultLines::Early {
            read: line_of(ops, *read),
            write: line_of(ops, *write),
        }),
        LevelFault::Cycle(steps) => Ok(FaultLines::Cycle {
            steps: step_lines(alloc, ops, steps)?,
            writes: write_lines(alloc, ops, steps)?,
        }),
    }
}

/// What is found of a guarantee of sessions.
fn found_of(
    alloc: Global,
    ops: &[Operation],
    table: &ClusterTable,
    guarantee: Guarantee,
) -> Result<Found, AllocError>
    requires history { IsHistory ops.now }
    requires by_call { IsByCall ops.now }
    requires few { AreFew ops.now }
    requires table { IsClusterTable ops.now table.now.clusters.items table.now.numbers.items }
    requires sessions { IsOfSessions guarantee }
    ensures { IfOk result (IsFound guarantee ops.now table.now.clusters.items) }
{
    match decide(alloc, ops, table, guarantee)? {
        Decision::Kept(clusters) => Ok(Found {
            kept: true,
            fault: None,
            clusters: Some(clusters),
        }),
        Decision::Broken(fault) => Ok(Found {
            kept: false,
            fault: Some(fault_lines(alloc, ops, &fault)?),
            clusters: None,
        }),
    }
}

/// All weaker guarantees, of a register that kept the session; the clusters are in its order, if that is
/// known.
fn all_kept(ordered: Option<Ordered>) -> Guarantees
    ensures kept { result.kept ≡ every_guarantee }
    ensures ordered { result.ordered ≡ ordered }
{
    Guarantees {
        kept: KeptGuarantees {
            session: true,
            sequential: true,
            own_writes: None,
            monotonic: None,
            session_fault: None,
            own_writes_fault: None,
            monotonic_fault: None,
            sequential_fault: None,
        },
        ordered,
    }
}

/// A fault, if it is to be told of.
fn fault_if(told: bool, fault: Option<FaultLines>) -> Option<FaultLines>
    ensures { result ≡ cond told fault None }
{
    if told { fault } else { None }
}

/// Clusters in an order that keeps the level, or else the next one.
fn ordered_or(
    level: LevelName,
    clusters: Option<Vec<u32>>,
    next: Option<Ordered>,
) -> Option<Ordered>
    ensures { result ≡ is_ordered_or level clusters next }
{
    match clusters {
        Some(clusters) => Some(Ordered { level, clusters }),
        None => next,
    }
}

/// What is found of a register that didn't keep the session.
fn without_session(session: Found, own: Found, monotonic: Found, sequential: Found) -> Guarantees
    ensures kept { result.kept ≡ guarantees_found session own monotonic sequential }
    ensures ordered { result.ordered
        ≡ is_ordered_or LevelName.OwnWrites own.clusters
        (is_ordered_or LevelName.Monotonic monotonic.clusters
        (is_ordered_or LevelName.Sequential sequential.clusters None)) }
{
    Guarantees {
        kept: KeptGuarantees {
            session: false,
            sequential: sequential.kept,
            own_writes: Some(own.kept),
            monotonic: Some(monotonic.kept),
            session_fault: fault_if(own.kept && monotonic.kept, session.fault),
            own_writes_fault: own.fault,
            monotonic_fault: monotonic.fault,
            sequential_fault: sequential.fault,
        },
        ordered: ordered_or(
            LevelName::OwnWrites,
            own.clusters,
            ordered_or(
                LevelName::Monotonic,
                monotonic.clusters,
                ordered_or(LevelName::Sequential, sequential.clusters, None),
            ),
        ),
    }
}

/// The weaker guarantees of a register whose clusters are known, and if it isn't atomic the clusters in an
/// order for the strongest that it kept.
pub(crate) fn guarantees_of(
    alloc: Global,
    ops: &[Operation],
    table: &ClusterTable,
    atomic: bool,
) -> Result<Guarantees, AllocError>
    requires history { IsHistory ops.now }
    requires by_call { IsByCall ops.now }
    requires few { AreFew ops.now }
    requires table { IsClusterTable ops.now table.now.clusters.items table.now.numbers.items }
    requires atomic { atomic ≡ true → IsAtomic ops.now }
    ensures kept { IfOk result (λ g. AreGuarantees ops.now g.kept) }
    ensures ordered { IfOk result (λ g. atomic ≡ false
        → IsOrdered ops.now table.now.clusters.items (strongest false g.kept) g.ordered) }
{
    if atomic {
        return Ok(all_kept(None));
    }
    let session = found_of(alloc, ops, table, Guarantee::Session)?;
    if session.kept {
        return Ok(all_kept(ordered_or(LevelName::Session, session.clusters, None)));
    }
    let own = found_of(alloc, ops, table, Guarantee::OwnWrites)?;
    let monotonic = found_of(alloc, ops, table, Guarantee::Monotonic)?;
    let sequential = found_of(alloc, ops, table, Guarantee::Sequential)?;
    Ok(without_session(session, own, monotonic, sequential))
}

/// The weaker guarantees of a register with a read whose value nobody wrote: none was kept.
pub(crate) fn none_kept(read: u32) -> KeptGuarantees
    ensures { result ≡ no_guarantee read }
{
    KeptGuarantees {
        session: false,
        sequential: false,
        own_writes: Some(false),
        monotonic: Some(false),
        session_fault: None,
        own_writes_fault: Some(FaultLines::Unwritten { read }),
        monotonic_fault: Some(FaultLines::Unwritten { read }),
        sequential_fault: Some(FaultLines::Unwritten { read }),
    }
}
