//! The report of a whole history.
ghost use Rattle.std.specs.Prelude.{◌≡◌, length, List, IfOk};
ghost use Rattle.std.specs.List.{list_any};
ghost use Rattle.history_text.specs.declared.event.AnyEvent.{AnyEvent as AnEvent};
ghost use Rattle.reg_intake.specs.CasHistory.History.{IsHistoryOf};
ghost use Rattle.search_report.specs.Meaning.{IsReport, is_no as is_no_of, outcome_of};
ghost use Rattle.search_report.specs.Meaning.{is_unknown as is_unknown_of};
ghost use Rattle.search_report.specs.Registers.{AreFindings};

use crate::register::{Finding, is_unknown};
use crate::registers::lines_of_registers;
use crate::rounds::{findings, findings_alone};
use crate::settings::Settings;
use reg_intake::cas_history::History;
use register_search::Bounds;
use report_text::search::{Atomicity, Outcome, RegisterReport, Report};
use std::alloc::{AllocError, Global};
use std::thread::Threads;

fn is_no(atomicity: &Atomicity) -> bool
    ensures { result ≡ is_no_of atomicity.now }
{
    matches!(atomicity, Atomicity::No(_))
}

/// Whether some register isn't atomic.
fn has_no(reports: &[RegisterReport]) -> bool
    ensures { result ≡ list_any (λ report. is_no_of report.atomicity) reports.now }
{
    reports.iter().any(|report| is_no(&report.atomicity))
}

/// Whether the search gave up on some register.
fn has_unknown(reports: &[RegisterReport]) -> bool
    ensures { result ≡ list_any (λ report. is_unknown_of report.atomicity) reports.now }
{
    reports.iter().any(|report| is_unknown(&report.atomicity))
}

/// What is known of all registers.
fn outcome(reports: &[RegisterReport]) -> Outcome
    ensures { result ≡ outcome_of reports.now }
{
    if has_no(reports) {
        Outcome::No
    } else if has_unknown(reports) {
        Outcome::Unknown
    } else {
        Outcome::Yes
    }
}

/// The report of a history, from what is found of its registers.
fn report_of(alloc: Global, history: &History, findings: Vec<Finding>) -> Result<Report, AllocError>
    requires names { length history.now.registers.items ≡ length history.now.names.items }
    requires findings { AreFindings history.now findings.items }
    ensures { IfOk result (λ report. (events : List AnEvent) → IsHistoryOf events history.now
        → IsReport events report) }
{
    let registers = lines_of_registers(alloc, history, findings)?;
    let atomic = outcome(&registers);
    Ok(Report {
        registers,
        operations: history.operations,
        atomic,
    })
}

/// The report of a history, by workers that share its registers.
pub(crate) fn report(
    rt: &(impl Threads + Sync),
    alloc: Global,
    history: &History,
    settings: Settings,
) -> Result<Report, AllocError>
    requires { length history.now.registers.items ≡ length history.now.names.items }
    ensures { IfOk result (λ report. (events : List AnEvent) → IsHistoryOf events history.now
        → IsReport events report) }
{
    report_of(alloc, history, findings(rt, alloc, history, settings)?)
}

/// The report of a history, by this thread.
pub(crate) fn report_alone(
    alloc: Global,
    history: &History,
    bounds: Bounds,
) -> Result<Report, AllocError>
    requires { length history.now.registers.items ≡ length history.now.names.items }
    ensures { IfOk result (λ report. (events : List AnEvent) → IsHistoryOf events history.now
        → IsReport events report) }
{
    report_of(alloc, history, findings_alone(alloc, history, bounds)?)
}
