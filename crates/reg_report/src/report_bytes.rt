//! From the arena of a history to the bytes of its report.
ghost use Rattle.std.specs.Prelude.{◌≡◌, true, IfOk};
ghost use Rattle.reg_report.specs.ReportText.{IsReportText};

use crate::findings::find;
use crate::findings_text::{ReportText, whole_text};
use crate::first::report_of_first;
use crate::outcome::Outcome;
use crate::pieces::{Gate, Settings};
use reg_arena::Arena;
use report_text::check::text;
use std::alloc::{AllocError, Global};
use std::thread::Threads;

/// The text of the report of the first register that isn't atomic.
fn text_of_first<T: Threads + Sync, G: Gate + Sync>(
    rt: &T,
    alloc: Global,
    arena: &Arena,
    settings: Settings,
    gate: &G,
) -> Result<ReportText, AllocError>
    requires { settings.first ≡ true }
    ensures { IfOk result (IsReportText true arena.now) }
{
    let report = report_of_first(rt, alloc, arena, settings, gate)?;
    let mut parts = Vec::new(alloc);
    parts.push(text(alloc, &report)?)?;
    Ok(ReportText {
        parts,
        outcome: Outcome::of(&report),
    })
}

/// The text of the report of an accepted history that the settings ask for,
/// from its arena, which is dropped on the way.
pub(crate) fn text_by<T: Threads + Sync, G: Gate + Sync>(
    rt: &T,
    alloc: Global,
    arena: Arena,
    settings: Settings,
    gate: &G,
) -> Result<ReportText, AllocError>
    ensures { IfOk result (IsReportText settings.first arena) }
{
    if settings.first() {
        text_of_first(rt, alloc, &arena, settings, gate)
    } else {
        let (findings, operations) = find(rt, alloc, &arena, settings, gate)?;
        whole_text(rt, alloc, arena, findings, operations)
    }
}
