//! From what is found of all registers to the bytes of the report. Each thread makes the line of a register
//! and writes it at once, so that no line is kept as values.
ghost use Rattle.std.specs.Prelude.{◌≡◌, ◌<◌, All, false, flat_map, length, is_some, IfOk};
ghost use Rattle.std.specs.Thread.{IsSync};
ghost use Rattle.history_model.specs.Operations.{calls};
ghost use Rattle.reg_report.specs.ReportText.{IsLinesText, IsReportText, IsTextOf};
ghost use Rattle.reg_report.specs.Meaning.{IsWholeAtomicity};
ghost use Rattle.reg_report.specs.Registers.{AreFindings, IsFinding};
ghost use Rattle.report_text.specs.Check.Text.{line_text, summary_json};

use crate::findings::Finding;
use crate::history::whole_order_in_parts;
use crate::outcome::Outcome;
use crate::register::register_report;
use parallel::{REGISTER_PARTS, both, map_parts, share_size};
use reg_arena::Arena;
use report_text::check::{Lines, Registers, Report, put_register_line, summary_in_parts};
use std::alloc::{AllocError, Global};
use std::thread::Threads;

/// The bytes of a report in parts, in order, and what it says of the whole history.
#[derive(Drop)]
pub(crate) struct ReportText {
    pub(crate) parts: Vec<Vec<u8>>,
    pub(crate) outcome: Outcome,
}

/// The lines of some registers, one after another, each written before the next is made.
fn lines_text(alloc: Global, arena: &Arena, findings: &[Finding]) -> Result<Vec<u8>, AllocError>
    requires { All (IsFinding arena.now) findings.now }
    ensures { IfOk result (λ bytes. IsTextOf arena.now findings.now bytes.items) }
{
    let mut out = Vec::new(alloc);
    for finding in findings {
        let reg = register_report(alloc, arena, finding)?;
        put_register_line(alloc, &mut out, &reg)?;
    }
    Ok(out)
}

/// How many registers' lines are made in one part. The lines of few registers are long, and the thread that
/// merges their orders takes as long as each that makes lines: it keeps a processor to itself.
fn part_size(rt: &impl Threads, count: usize) -> usize
    ensures { 0 < result }
{
    if count < REGISTER_PARTS {
        share_size(rt, count, 1)
    } else {
        count / REGISTER_PARTS + 1
    }
}

/// The lines of all registers in parts, in order, each made by one thread.
fn lines_in_parts(
    rt: &(impl Threads + Sync),
    alloc: Global,
    arena: &Arena,
    findings: &[Finding],
) -> Result<Vec<Vec<u8>>, AllocError>
    requires { AreFindings arena.now findings.now }
    ensures { IfOk result (λ parts. IsLinesText arena.now (flat_map (λ part. part.items) parts.items)) }
{
    map_parts(
        rt,
        alloc,
        findings,
        part_size(rt, findings.len()),
        |part: &[Finding]| -> Result<Vec<u8>, AllocError>
            requires { All (IsFinding arena.now) part.now }
            ensures { IfOk result (λ bytes. IsTextOf arena.entry.now part.now bytes.items) }
        { lines_text(alloc, arena, part) },
    )
}

/// The merged order, if each register is atomic, and beside it the registers' lines in parts.
fn order_and_lines<T: Threads + Sync>(
    rt: &T,
    alloc: Global,
    arena: &Arena,
    findings: &[Finding],
) -> Result<(Option<Lines>, Vec<Vec<u8>>), AllocError>
    requires { AreFindings arena.now findings.now }
    ensures order { IfOk result (λ made. IsWholeAtomicity arena.now (is_some made.0) made.0) }
    ensures lines { IfOk result (λ made. IsLinesText arena.now (flat_map (λ part. part.items) made.1.items)) }
{
    let (order, lines) = both(
        rt,
        || -> Result<Option<Lines>, AllocError>
            requires { IsSync T.row × AreFindings arena.now findings.now }
            ensures { IfOk result (λ order. IsWholeAtomicity arena.entry.now (is_some order) order) }
        { whole_order_in_parts(rt, alloc, arena, findings) },
        || -> Result<Vec<Vec<u8>>, AllocError>
            requires { IsSync T.row × AreFindings arena.now findings.now }
            ensures { IfOk result (λ parts.
                IsLinesText arena.entry.now (flat_map (λ part. part.items) parts.items)) }
        { lines_in_parts(rt, alloc, arena, findings) },
    );
    Ok((order?, lines?))
}

/// The last line of a report and its line feed in parts. A new thread makes them, while this one drops what
/// the report came from, which takes a while.
fn summary_beside_drop<T: Threads + Sync>(
    rt: &T,
    alloc: Global,
    report: &Report,
    arena: Arena,
    findings: Vec<Finding>,
) -> Result<Vec<Vec<u8>>, AllocError>
    ensures { IfOk result (λ parts. flat_map (λ part. part.items) parts.items
        ≡ line_text (summary_json report.now)) }
{
    let (parts, ()) = both(
        rt,
        || -> Result<Vec<Vec<u8>>, AllocError>
            requires { IsSync T.row }
            ensures { IfOk result (λ parts. flat_map (λ part. part.items) parts.items
                ≡ line_text (summary_json report.entry.now)) }
        { summary_in_parts(rt, alloc, report) },
        move || drop((arena, findings)),
    );
    parts
}

/// The text of the whole report, from what is found of all registers and the number of operations.
pub(crate) fn whole_text<T: Threads + Sync>(
    rt: &T,
    alloc: Global,
    arena: Arena,
    findings: Vec<Finding>,
    operations: u32,
) -> Result<ReportText, AllocError>
    requires findings { AreFindings arena findings.items }
    requires operations { operations ≡ length (calls arena.events) }
    ensures { IfOk result (IsReportText false arena) }
{
    let (order, mut parts) = order_and_lines(rt, alloc, &arena, &findings)?;
    // The summary shows none of the registers' lines, which are text by now.
    let summary = Report {
        regs: Registers::new(Vec::new(alloc)),
        operations,
        registers: arena.register_count(),
        atomic: order.is_some(),
        order,
    };
    parts.append(&mut summary_beside_drop(rt, alloc, &summary, arena, findings)?)?;
    Ok(ReportText {
        parts,
        outcome: Outcome::of(&summary),
    })
}
