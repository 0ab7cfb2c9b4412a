//! The report of an accepted history.
ghost use Rattle.std.specs.Prelude.{◌≡◌, length, is_some, IfOk};
ghost use Rattle.std.specs.Thread.{IsSync};
ghost use Rattle.history_model.specs.Operations.{calls};
ghost use Rattle.reg_report.specs.Meaning.{IsRegisterReport, IsReport, IsWholeAtomicity};
ghost use Rattle.reg_report.specs.Registers.{AreFindings, AreGatheredIfAtomic};
ghost use Rattle.reg_report.specs.Registers.{AreLines, IsFinding, IsMergedIfAtomic};

use crate::arena_laws::arena_laws;
use crate::findings::Finding;
use crate::merged_lines::merged_lines_in_parts;
use crate::merged_order::merge_gathered;
use crate::order_lines::order_lines;
use crate::pieces::Judgement;
use crate::register::register_report;
use parallel::{both, map_each};
use reg_arena::Arena;
use reg_zones::Placed;
use report_text::check::{Lines, RegReport, Registers, Report};
use std::alloc::{AllocError, Global};
use std::thread::Threads;

/// The lines of all registers, in the order of their first calls.
fn register_reports(
    alloc: Global,
    arena: &Arena,
    findings: &[Finding],
) -> Result<Vec<RegReport>, AllocError>
    requires { AreFindings arena.now findings.now }
    ensures { IfOk result (λ regs. AreLines arena.now regs.items) }
{
    let mut regs = Vec::with_capacity(alloc, findings.len())?;
    for finding in findings {
        regs.push(register_report(alloc, arena, finding)?)?;
    }
    Ok(regs)
}

/// The same lines, made by several threads.
fn register_reports_in_parts(
    rt: &(impl Threads + Sync),
    alloc: Global,
    arena: &Arena,
    findings: &[Finding],
) -> Result<Vec<RegReport>, AllocError>
    requires { AreFindings arena.now findings.now }
    ensures { IfOk result (λ regs. AreLines arena.now regs.items) }
{
    // A register's line may be long, so even one is worth a thread.
    map_each(
        rt,
        alloc,
        findings,
        1,
        |finding: &Finding| -> Result<RegReport, AllocError>
            requires { IsFinding arena.now finding.now }
            ensures { IfOk result (IsRegisterReport arena.entry.now finding.now.register.0) }
        { register_report(alloc, arena, finding) },
    )
}

/// How many operations the orders of all registers have.
fn room_for_orders(findings: &[Finding]) -> usize {
    let mut room: usize = 0;
    for finding in findings {
        if let Judgement::Order(order) = &finding.judged {
            room = room.saturating_add(order.as_slice().len());
        }
    }
    room
}

/// The orders of all registers, one after another, or nothing if one of them has a fault.
fn orders_of(
    alloc: Global,
    arena: &Arena,
    findings: &[Finding],
) -> Result<Option<Vec<Placed>>, AllocError>
    requires { AreFindings arena.now findings.now }
    ensures { IfOk result (AreGatheredIfAtomic arena.now) }
{
    let mut operations = Vec::with_capacity(alloc, room_for_orders(findings))?;
    for finding in findings {
        match &finding.judged {
            Judgement::Order(order) => operations.extend_from_slice(order.as_slice())?,
            Judgement::Faulty(_) => return Ok(None),
        }
    }
    Ok(Some(operations))
}

/// The operations of all registers in the merged order, if each register is atomic.
fn merged_order(
    alloc: Global,
    arena: &Arena,
    findings: &[Finding],
) -> Result<Option<Vec<Placed>>, AllocError>
    requires { AreFindings arena.now findings.now }
    ensures { IfOk result (IsMergedIfAtomic arena.now) }
{
    match orders_of(alloc, arena, findings)? {
        None => Ok(None),
        Some(operations) => Ok(Some(merge_gathered(alloc, arena, operations)?)),
    }
}

/// The merged order by lines, if each register is atomic.
fn whole_order(
    alloc: Global,
    arena: &Arena,
    findings: &[Finding],
) -> Result<Option<Lines>, AllocError>
    requires { AreFindings arena.now findings.now }
    ensures { IfOk result (λ order. IsWholeAtomicity arena.now (is_some order) order) }
{
    arena_laws(arena);
    match merged_order(alloc, arena, findings)? {
        None => Ok(None),
        Some(merged) => Ok(Some(order_lines(alloc, arena, &merged)?)),
    }
}

/// The same lines, found by several threads.
pub(crate) fn whole_order_in_parts(
    rt: &(impl Threads + Sync),
    alloc: Global,
    arena: &Arena,
    findings: &[Finding],
) -> Result<Option<Lines>, AllocError>
    requires { AreFindings arena.now findings.now }
    ensures { IfOk result (λ order. IsWholeAtomicity arena.now (is_some order) order) }
{
    arena_laws(arena);
    match orders_of(alloc, arena, findings)? {
        None => Ok(None),
        Some(operations) => Ok(Some(merged_lines_in_parts(rt, alloc, arena, &operations)?)),
    }
}

/// The report with these lines, this order and this number of operations.
fn report_of(arena: &Arena, regs: Vec<RegReport>, order: Option<Lines>, operations: u32) -> Report
    requires regs { AreLines arena.now regs.items }
    requires order { IsWholeAtomicity arena.now (is_some order) order }
    requires operations { operations ≡ length (calls arena.now.events) }
    ensures { IsReport arena.now result }
{
    Report {
        regs: Registers::new(regs),
        operations,
        registers: arena.register_count(),
        atomic: order.is_some(),
        order,
    }
}

/// The report of a history, from what is found of its registers and the number of its operations.
pub(crate) fn history_report(
    alloc: Global,
    arena: &Arena,
    findings: &[Finding],
    operations: u32,
) -> Result<Report, AllocError>
    requires findings { AreFindings arena.now findings.now }
    requires operations { operations ≡ length (calls arena.now.events) }
    ensures { IfOk result (IsReport arena.now) }
{
    let regs = register_reports(alloc, arena, findings)?;
    let order = whole_order(alloc, arena, findings)?;
    Ok(report_of(arena, regs, order, operations))
}

/// The same report, made by several threads.
pub(crate) fn history_report_in_parts<R: Threads + Sync>(
    rt: &R,
    alloc: Global,
    arena: &Arena,
    findings: &[Finding],
    operations: u32,
) -> Result<Report, AllocError>
    requires findings { AreFindings arena.now findings.now }
    requires operations { operations ≡ length (calls arena.now.events) }
    ensures { IfOk result (IsReport arena.now) }
{
    let (order, regs) = both(
        rt,
        || -> Result<Option<Lines>, AllocError>
            requires { IsSync R.row × AreFindings arena.now findings.now }
            ensures { IfOk result (λ order. IsWholeAtomicity arena.entry.now (is_some order) order) }
        { whole_order_in_parts(rt, alloc, arena, findings) },
        || -> Result<Vec<RegReport>, AllocError>
            requires { IsSync R.row × AreFindings arena.now findings.now }
            ensures { IfOk result (λ regs. AreLines arena.entry.now regs.items) }
        { register_reports_in_parts(rt, alloc, arena, findings) },
    );
    Ok(report_of(arena, regs?, order?, operations))
}
