//! The line of one register.
ghost use Rattle.std.specs.Prelude.{false, IfOk};
ghost use Rattle.reg_report.specs.Pieces.Judged.{IsJudged};
ghost use Rattle.reg_report.specs.Atomicity.{IsAtomicityShown};
ghost use Rattle.history_model.specs.Lamport.{HasSingleWriter};
ghost use Rattle.reg_lamport.specs.declared.level.Level.TheVariants.{Regular};
ghost use Rattle.reg_zones.specs.Faults.{IsFault};
ghost use Rattle.reg_zones.specs.Inversions.{IsRegular};
ghost use Rattle.reg_report.specs.Levels.{IsLevelFinding};
ghost use Rattle.reg_report.specs.Meaning.{IsInversionAnswer, IsRegisterReport};
ghost use Rattle.reg_report.specs.Registers.{IsFinding};
ghost use Rattle.report_text.specs.declared.check.report.Verdict.TheVariants.{Yes};
ghost use Rattle.history_model.specs.Operations.{register_of};

use crate::arena_laws::arena_laws;
use crate::fault_lines::{fault_lines, lines};
use crate::findings::Finding;
use crate::levels::LevelFinding;
use crate::order_lines::{order_lines, point_lines};
use crate::pieces::{Judgement, Order};
use history_model::RegId;
use history_text::Name;
use reg_arena::Arena;
use reg_zones::laws::inversions_decide;
use reg_zones::{Fault, inversion_of};
use report_text::check::{FaultLines, Lines, RegReport, Verdict};
use std::alloc::{AllocError, Global};

/// What a register's line says of whether it is atomic.
#[derive(Drop)]
enum Atomicity {
    /// Its canonical order and the points, by lines.
    Yes {
        order: Lines,
        points: Lines,
    },
    /// Why it isn't, and if it is regular, a new-old inversion.
    No {
        fault: FaultLines,
        inversion: Option<(u32, u32)>,
    },
}

/// The order and its points by lines.
fn ordered(
    alloc: Global,
    arena: &Arena,
    register: RegId,
    order: &Order,
) -> Result<Atomicity, AllocError>
    requires { IsJudged (register_of arena.now register.0) (Judgement.Order order.now) }
    ensures { (regular : _)
        → IfOk result (IsAtomicityShown arena.now (register_of arena.now register.0) regular) }
{
    arena_laws(arena);
    Ok(Atomicity::Yes {
        order: order_lines(alloc, arena, order.as_slice())?,
        points: point_lines(alloc, arena, order.as_slice())?,
    })
}

/// The inversion that the fault of a regular register names, by lines.
fn inverted(arena: &Arena, register: RegId, fault: Fault) -> Option<(u32, u32)>
    requires fault { IsFault (register_of arena.now register.0) fault }
    requires single { HasSingleWriter (register_of arena.now register.0) }
    requires regular { IsRegular (register_of arena.now register.0) }
    ensures { IsInversionAnswer arena.now (register_of arena.now register.0) false Yes result }
{
    arena_laws(arena);
    inversions_decide();
    Some(lines(arena, inversion_of(&fault)?))
}

/// The inversion that the line names. `regular` is what it says of regular.
fn inversion_lines(
    arena: &Arena,
    register: RegId,
    fault: Fault,
    regular: LevelFinding,
) -> Option<(u32, u32)>
    requires fault { IsFault (register_of arena.now register.0) fault }
    requires regular { IsLevelFinding Regular (register_of arena.now register.0) regular }
    ensures { IsInversionAnswer arena.now (register_of arena.now register.0) false regular.verdict result }
{
    match regular.verdict {
        Verdict::Yes => inverted(arena, register, fault),
        Verdict::No => None,
        Verdict::SeveralWriters => None,
    }
}

/// The fault by lines. `regular` is what is said of regular.
fn faulty(arena: &Arena, register: RegId, fault: Fault, regular: LevelFinding) -> Atomicity
    requires judged { IsJudged (register_of arena.now register.0) (Judgement.Faulty fault) }
    requires regular { IsLevelFinding Regular (register_of arena.now register.0) regular }
    ensures { IsAtomicityShown arena.now (register_of arena.now register.0) regular.verdict result }
{
    Atomicity::No {
        fault: fault_lines(arena, fault),
        inversion: inversion_lines(arena, register, fault, regular),
    }
}

/// What the line says of the order or the fault. `regular` is what is said of regular.
fn atomicity_of(
    alloc: Global,
    arena: &Arena,
    register: RegId,
    judged: &Judgement,
    regular: LevelFinding,
) -> Result<Atomicity, AllocError>
    requires judged { IsJudged (register_of arena.now register.0) judged.now }
    requires regular { IsLevelFinding Regular (register_of arena.now register.0) regular }
    ensures { IfOk result (IsAtomicityShown arena.now (register_of arena.now register.0) regular.verdict) }
{
    match judged {
        Judgement::Order(order) => ordered(alloc, arena, register, order),
        Judgement::Faulty(fault) => Ok(faulty(arena, register, *fault, regular)),
    }
}

/// The line of a register, from what is found of it.
pub(crate) fn register_report(
    alloc: Global,
    arena: &Arena,
    finding: &Finding,
) -> Result<RegReport, AllocError>
    requires { IsFinding arena.now finding.now }
    ensures { IfOk result (IsRegisterReport arena.now finding.now.register.0) }
{
    let Finding {
        register,
        judged,
        levels,
        tally,
    } = finding;
    let name = Name::new(alloc, arena.name(*register))?;
    let atomicity = atomicity_of(alloc, arena, *register, judged, levels.regular)?;
    let (atomic, fault, inversion, order, points) = match atomicity {
        Atomicity::Yes { order, points } => (true, None, None, Some(order), Some(points)),
        Atomicity::No { fault, inversion } => (false, Some(fault), inversion, None, None),
    };
    Ok(RegReport {
        register: name,
        writes: tally.writes,
        reads: tally.reads,
        pending: tally.pending,
        safe: levels.safe.verdict,
        regular: levels.regular.verdict,
        safe_read: levels.safe.read,
        regular_read: levels.regular.read,
        atomic,
        fault,
        inversion,
        order,
        points,
    })
}
