//! How the work of a history is cut into pieces.
ghost use Rattle.std.specs.Prelude.{◌<◌, ◌≤◌, length, IfOk, OnOk};
ghost use Rattle.history_text.specs.declared.limits.TheConstants.{MAX_EVENTS};
ghost use Rattle.job_board.specs.declared.limits.TheConstants.{MAX_JOBS};
ghost use Rattle.reg_lamport.specs.Counts.{AreReadCounts};
ghost use Rattle.reg_report.specs.Pieces.Plan.{AddsCuts, AreTasks, IsFirstPlan, IsPlan, IsPlanBy, IsSomePlan};

use crate::pieces::settings::Settings;
use crate::pieces::tasks::{Plan, Task};
use history_model::RegId;
use reg_arena::Arena;
use reg_lamport::{ReadCounts, read_counts};
use std::alloc::{AllocError, Global};

/// Adds a task for each cut of a register's reads, by their count; none if several processes write the
/// register. A cut has `cut` reads, the last one perhaps fewer.
fn add_cuts(
    tasks: &mut Vec<Task>,
    register: RegId,
    count: Option<u32>,
    cut: u32,
) -> Result<(), AllocError>
    requires { 0 < cut }
    ensures { OnOk result (AddsCuts cut register.0 count tasks.old.items tasks.new.items) }
{
    let mut from = 0;
    let len = match count {
        Some(count) => count as usize,
        None => 0,
    };
    while from < len {
        let to = from + (len - from).min(cut as usize);
        tasks.push(Task::Reads { register, from, to })?;
        from = to;
    }
    Ok(())
}

/// The tasks of a whole report: for each register its verdict, then the cuts of its reads.
fn whole_tasks(
    alloc: Global,
    arena: &Arena,
    counts: &ReadCounts,
    cut: u32,
) -> Result<Vec<Task>, AllocError>
    requires cut { 0 < cut }
    requires counts { AreReadCounts arena.now counts.now }
    ensures { IfOk result (λ tasks. AreTasks cut 0 counts.now tasks.items) }
{
    let count = arena.register_count();
    let mut tasks = Vec::with_capacity(alloc, count as usize)?;
    for number in 0..count {
        let register = RegId(number);
        tasks.push(Task::Judge(register))?;
        add_cuts(&mut tasks, register, counts.of(register), cut)?;
    }
    Ok(tasks)
}

/// A history has no more events, and no more registers, than an arena takes. It does nothing.
fn few_events(arena: &Arena)
    ensures events { length arena.now.events ≤ MAX_EVENTS }
    ensures registers { length arena.now.names ≤ MAX_EVENTS }
{
    let _events = arena.event_count();
    let _registers = arena.register_count();
}

/// The pieces of work of a whole report.
fn whole_plan(alloc: Global, arena: &Arena, cut: u32) -> Result<Plan, AllocError>
    requires { 0 < cut }
    ensures { IfOk result (IsPlan arena.now cut) }
{
    few_events(arena);
    let counts = read_counts(alloc, arena)?;
    let tasks = whole_tasks(alloc, arena, &counts, cut)?;
    Ok(Plan {
        tasks,
        counts,
        first: false,
    })
}

/// A piece for each register, to find the first one that isn't atomic.
fn first_plan(alloc: Global, arena: &Arena) -> Result<Plan, AllocError>
    ensures { IfOk result (IsFirstPlan arena.now) }
{
    let count = arena.register_count();
    let mut tasks = Vec::with_capacity(alloc, count as usize)?;
    for number in 0..count {
        tasks.push(Task::First(RegId(number)))?;
    }
    Ok(Plan {
        tasks,
        counts: ReadCounts::none(alloc),
        first: true,
    })
}

/// The pieces of work of a history.
///
/// # Errors
/// Out of memory; the arena is as before.
pub fn plan(alloc: Global, arena: &Arena, settings: Settings) -> Result<Plan, AllocError>
    ensures by { IfOk result (IsPlanBy arena.now settings.cut settings.first) }
    ensures some { IfOk result (IsSomePlan arena.now) }
    ensures few { IfOk result (λ plan. length plan.tasks ≤ MAX_JOBS) }
{
    if settings.first() {
        first_plan(alloc, arena)
    } else {
        whole_plan(alloc, arena, settings.cut())
    }
}
