//! Whether the whole history is causal, by lines.
ghost use Rattle.std.specs.Prelude.{◌≡◌, cond, true, IfOk, List};
ghost use Rattle.history_model.specs.Operations.{operations};
ghost use Rattle.history_model.specs.declared.operation.Operation.{Operation as AnOperation};
ghost use Rattle.level_laws.specs.Causal.{IsCausal, IsCausalOrder};
ghost use Rattle.level_laws.specs.CausalFault.{CausalFault as AFault};
ghost use Rattle.causal_order.specs.Decisions.{AreAt, IsShown};
ghost use Rattle.report_text.specs.declared.level.causal.CausalVerdict.TheVariants.{Yes, Unknown};
ghost use Rattle.level_report.specs.Causal.{IsCausalOrderShown, IsCausalSaid, ShowsCausalFault};
ghost use Rattle.level_report.specs.Shown.{AreAllReady};
ghost use Rattle.level_report.specs.Steps.{AreLinesIf, AreStepLines, IsStepLines};
ghost use Rattle.level_report.specs.Steps.{lines_at as lines_of_places};

use crate::lines::line_of;
use crate::operations::all_operations;
use crate::order::called_lines;
use causal_order::{CausalFault, CausalStep, Decision, Why, decide};
use history_model::Operation;
use reg_arena::Arena;
use report_text::level::{CausalFaultLines, CausalLines, CausalVerdict, StepLines, StepReason};
use std::alloc::{AllocError, Global};

/// Operations that are given by their places, by lines.
fn lines_at(alloc: Global, ops: &[Operation], places: &[u32]) -> Result<Vec<u32>, AllocError>
    ensures { IfOk result (λ lines. lines.items ≡ lines_of_places ops.now places.now) }
{
    places
        .iter()
        .map(|place| line_of(ops, *place))
        .collect(alloc)
}

/// The same, if there are any.
fn lines_if(
    alloc: Global,
    ops: &[Operation],
    places: &Option<Vec<u32>>,
) -> Result<Option<Vec<u32>>, AllocError>
    ensures { IfOk result (AreLinesIf ops.now places.now) }
{
    match places {
        Some(places) => Ok(Some(lines_at(alloc, ops, places)?)),
        None => Ok(None),
    }
}

/// A step that no read explains.
fn plain_step(from: u32, to: u32, why: StepReason) -> StepLines
    ensures { result ≡ record { from = from; to = to; why = why; read = None; knew = None } }
{
    StepLines {
        from,
        to,
        why,
        read: None,
        knew: None,
    }
}

/// A step of a cycle, by lines.
fn step_lines(alloc: Global, ops: &[Operation], step: &CausalStep) -> Result<StepLines, AllocError>
    ensures { IfOk result (IsStepLines ops.now step.now) }
{
    let from = line_of(ops, step.from);
    let to = line_of(ops, step.to);
    match &step.why {
        Why::Process => Ok(plain_step(from, to, StepReason::Process)),
        Why::Read => Ok(plain_step(from, to, StepReason::Read)),
        Why::Initial => Ok(plain_step(from, to, StepReason::Initial)),
        Why::Hidden { read, knew } => Ok(StepLines {
            from,
            to,
            why: StepReason::Hidden,
            read: Some(line_of(ops, *read)),
            knew: lines_if(alloc, ops, knew)?,
        }),
    }
}

/// The steps of a cycle, by lines.
fn steps_lines(
    alloc: Global,
    ops: &[Operation],
    steps: &[CausalStep],
) -> Result<Vec<StepLines>, AllocError>
    ensures { IfOk result (λ lines. AreStepLines ops.now steps.now lines.items) }
{
    let mut lines = Vec::with_capacity(alloc, steps.len())?;
    for step in steps {
        lines.push(step_lines(alloc, ops, step)?)?;
    }
    Ok(lines)
}

/// Why a history isn't causal, by lines.
fn fault_lines(
    alloc: Global,
    ops: &[Operation],
    fault: &CausalFault,
) -> Result<CausalFaultLines, AllocError>
    ensures { IfOk result (λ lines. (evidence : AFault) → IsShown ops.now fault.now evidence
        → ShowsCausalFault ops.now evidence lines) }
{
    match fault {
        CausalFault::Unwritten { read } => Ok(CausalFaultLines::Unwritten {
            read: line_of(ops, *read),
        }),
        CausalFault::Cycle(steps) => Ok(CausalFaultLines::Cycle {
            steps: steps_lines(alloc, ops, steps)?,
        }),
    }
}

/// A causal order by the lines of its writes, without the initial ones, if it is asked for.
fn order_if(
    alloc: Global,
    ops: &[Operation],
    asked: bool,
    places: &[u32],
) -> Result<Option<Vec<u32>>, AllocError>
    requires { (order : List AnOperation) × AreAt ops.now places.now order × IsCausalOrder ops.now order }
    ensures { IfOk result (IsCausalOrderShown ops.now asked) }
{
    match asked {
        true => Ok(Some(called_lines(alloc, ops, places)?)),
        false => Ok(None),
    }
}

/// The answer where the search passed its bounds: an atomic history is causal all the same.
fn undecided(atomic: bool) -> CausalVerdict
    ensures { result ≡ cond atomic Yes Unknown }
{
    if atomic {
        CausalVerdict::Yes
    } else {
        CausalVerdict::Unknown
    }
}

/// What a report says of a history whose operations these are.
fn said_of(
    alloc: Global,
    ops: &[Operation],
    orders: bool,
    atomic: bool,
) -> Result<CausalLines, AllocError>
    requires ready { AreAllReady ops.now }
    requires atomic { atomic ≡ true → IsCausal ops.now }
    ensures { IfOk result (IsCausalSaid ops.now orders) }
{
    match decide(alloc, ops)? {
        Decision::Causal(places) => Ok(CausalLines {
            verdict: CausalVerdict::Yes,
            fault: None,
            order: order_if(alloc, ops, orders, &places)?,
        }),
        Decision::Broken(fault) => Ok(CausalLines {
            verdict: CausalVerdict::No,
            fault: Some(fault_lines(alloc, ops, &fault)?),
            order: None,
        }),
        Decision::Unknown => Ok(CausalLines {
            verdict: undecided(atomic),
            fault: None,
            order: None,
        }),
    }
}

/// What a report says of the whole history, with an order of its writes if one is asked for. Of an atomic one
/// nothing else is searched for.
pub(crate) fn causal_lines(
    alloc: Global,
    arena: &Arena,
    orders: bool,
    atomic: bool,
) -> Result<CausalLines, AllocError>
    requires { atomic ≡ true → IsCausal (operations arena.now) }
    ensures { IfOk result (IsCausalSaid (operations arena.now) orders) }
{
    if atomic && !orders {
        return Ok(CausalLines {
            verdict: CausalVerdict::Yes,
            fault: None,
            order: None,
        });
    }
    let ops = all_operations(alloc, arena)?;
    said_of(alloc, &ops, orders, atomic)
}
