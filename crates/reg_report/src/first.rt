//! The report of the first register that isn't atomic.
ghost use Rattle.std.specs.Prelude.{◌≡◌, ◌<◌, true, length, is_none, IfOk};
ghost use Rattle.reg_report.specs.Pieces.Workers.{IsFirstFound};
ghost use Rattle.reg_report.specs.First.{AreFoundLines, IsFirstReport};
ghost use Rattle.reg_report.specs.Meaning.{IsRegisterReport};
ghost use Rattle.reg_report.specs.Tally.{AreTallies};

use crate::arena_laws::arena_laws;
use crate::lone_thread::finding_of;
use crate::pieces::{Gate, Settings, first_faulty, plan};
use crate::register::register_report;
use crate::tally::{Tally, count_calls};
use history_model::RegId;
use reg_arena::Arena;
use report_text::check::{RegReport, Registers, Report};
use std::alloc::{AllocError, Global};
use std::thread::Threads;

/// The line of one register, from the counts of all registers' calls.
fn whole_line(
    alloc: Global,
    arena: &Arena,
    register: RegId,
    tallies: &[Tally],
) -> Result<RegReport, AllocError>
    requires register { register.0 < length arena.now.names }
    requires tallies { AreTallies arena.now tallies.now }
    ensures { IfOk result (IsRegisterReport arena.now register.0) }
{
    let finding = finding_of(alloc, arena, register, tallies)?;
    register_report(alloc, arena, &finding)
}

/// The line of the register found, if any.
fn first_lines(
    alloc: Global,
    arena: &Arena,
    found: Option<RegId>,
    tallies: &[Tally],
) -> Result<Registers, AllocError>
    requires found { IsFirstFound arena.now found }
    requires tallies { AreTallies arena.now tallies.now }
    ensures { IfOk result (AreFoundLines arena.now (is_none found)) }
{
    arena_laws(arena);
    let mut regs = Vec::new(alloc);
    match found {
        Some(register) => {
            regs.push(whole_line(alloc, arena, register, tallies)?)?;
            Ok(Registers::new(regs))
        }
        None => Ok(Registers::new(regs)),
    }
}

/// The report of a history whose first register that isn't atomic is `found`: its line, if there
/// is one, and the summary without an order.
fn report_of_found(alloc: Global, arena: &Arena, found: Option<RegId>) -> Result<Report, AllocError>
    requires { IsFirstFound arena.now found }
    ensures { IfOk result (IsFirstReport arena.now) }
{
    let counts = count_calls(alloc, arena)?;
    Ok(Report {
        regs: first_lines(alloc, arena, found, &counts.tallies)?,
        operations: counts.operations,
        registers: arena.register_count(),
        atomic: found.is_none(),
        order: None,
    })
}

/// The report of the first register that isn't atomic, which workers look for.
pub(crate) fn report_of_first<R: Threads + Sync, G: Gate + Sync>(
    rt: &R,
    alloc: Global,
    arena: &Arena,
    settings: Settings,
    gate: &G,
) -> Result<Report, AllocError>
    requires { settings.first ≡ true }
    ensures { IfOk result (IsFirstReport arena.now) }
{
    let plan = plan(alloc, arena, settings)?;
    let found = first_faulty(rt, alloc, arena, &plan, settings, gate)?;
    report_of_found(alloc, arena, found)
}
