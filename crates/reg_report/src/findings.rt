//! What is found of each register, from which its line and the merged order are made.
ghost use Rattle.std.specs.Prelude.{◌≡◌, ◌+◌, ◌<◌, ℕ, false, length, IfOk};
ghost use Rattle.std.specs.Thread.{IsSync};
ghost use Rattle.history_model.specs.Operations.{calls, register_of};
ghost use Rattle.reg_report.specs.Pieces.Judged.{IsJudged};
ghost use Rattle.reg_report.specs.Pieces.Plan.{IsPlan};
ghost use Rattle.reg_report.specs.Pieces.Slots.{AreDone, AreDoneFrom};
ghost use Rattle.reg_report.specs.Cuts.{HasTasks};
ghost use Rattle.reg_report.specs.Levels.{AreLevels};
ghost use Rattle.reg_report.specs.Registers.{AreFindings};
ghost use Rattle.reg_report.specs.Tally.{AreCallCounts, AreTallies};

use crate::levels::{Levels, levels_of};
use crate::pieces::{Gate, Judgement, Pieces, Plan, Settings, do_pieces, plan};
use crate::tally::{CallCounts, Tally, count_calls};
use history_model::RegId;
use parallel::both;
use reg_arena::Arena;
use std::alloc::{AllocError, Global};
use std::thread::Threads;

/// What is found of one register: all that its line says.
#[derive(Drop)]
pub(crate) struct Finding {
    pub(crate) register: RegId,
    pub(crate) judged: Judgement,
    pub(crate) levels: Levels,
    pub(crate) tally: Tally,
}

/// The order or the fault of one register, its levels, and the number after
/// its pieces, which stand from `start` on.
fn register_pieces(
    arena: &Arena,
    plan: &Plan,
    register: RegId,
    pieces: &mut Pieces,
    start: usize,
) -> (Judgement, Levels, usize)
    requires register { register.0 < length arena.now.names }
    requires plan { (cut : ℕ) × IsPlan arena.now cut plan.now }
    requires done { AreDoneFrom start arena.now plan.now.tasks pieces.old }
    requires tasks { HasTasks register.0 start plan.now }
    ensures judged { IsJudged (register_of arena.now register.0) result.0 }
    ensures levels { AreLevels (register_of arena.now register.0) result.1 }
    ensures tasks { HasTasks (register.0 + 1) result.2 plan.now }
    ensures done { AreDoneFrom result.2 arena.now plan.now.tasks pieces.new }
{
    let judged = pieces.take_judged(start);
    let (levels, next) = levels_of(arena, plan, register, pieces, start + 1);
    (judged, levels, next)
}

/// What is found of all registers, in the order of their first calls, from
/// what is done for each piece of the plan.
fn findings(
    alloc: Global,
    arena: &Arena,
    plan: &Plan,
    mut pieces: Pieces,
    tallies: &[Tally],
) -> Result<Vec<Finding>, AllocError>
    requires plan { (cut : ℕ) × IsPlan arena.now cut plan.now }
    requires done { AreDone arena.now plan.now.tasks pieces }
    requires tallies { AreTallies arena.now tallies.now }
    ensures { IfOk result (λ findings. AreFindings arena.now findings.items) }
{
    let count = arena.register_count();
    let mut findings = Vec::with_capacity(alloc, count as usize)?;
    let mut next = 0;
    for number in 0..count {
        let register = RegId(number);
        let (judged, levels, after) = register_pieces(arena, plan, register, &mut pieces, next);
        findings.push(Finding {
            register,
            judged,
            levels,
            tally: tallies[number as usize],
        })?;
        next = after;
    }
    Ok(findings)
}

/// What is found of all registers, and how many operations there are: workers do the pieces of the plan, and
/// meanwhile another thread counts the calls that didn't fail.
pub(crate) fn find<R: Threads + Sync, G: Gate + Sync>(
    rt: &R,
    alloc: Global,
    arena: &Arena,
    settings: Settings,
    gate: &G,
) -> Result<(Vec<Finding>, u32), AllocError>
    requires { settings.first ≡ false }
    ensures { IfOk result (λ found. AreFindings arena.now found.0.items
        × (found.1 ≡ length (calls arena.now.events))) }
{
    let plan = plan(alloc, arena, settings)?;
    let (counts, pieces) = both(
        rt,
        || -> Result<CallCounts, AllocError>
            ensures { IfOk result (AreCallCounts arena.entry.now) }
        { count_calls(alloc, arena) },
        || -> Result<Pieces, AllocError>
            requires { IsSync R.row × IsPlan arena.now settings.cut plan }
            ensures { IfOk result (AreDone arena.entry.now plan.tasks) }
        { do_pieces(rt, alloc, arena, &plan, settings, gate) },
    );
    let CallCounts {
        operations,
        tallies,
    } = counts?;
    let findings = findings(alloc, arena, &plan, pieces?, &tallies)?;
    Ok((findings, operations))
}
