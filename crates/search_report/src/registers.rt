//! The lines of all registers, of what is found of them.
ghost use Rattle.std.specs.Prelude.{◌≡◌, ℕ, List, length, IfOk};
ghost use Rattle.search_report.specs.Registers.{AreFindings, AreFirstLines, IsFinding, IsLine};

use crate::counts;
use crate::register::Finding;
use history_model::Operation;
use history_text::{Name, OpWord};
use reg_intake::cas_history::History;
use report_text::search::RegisterReport;
use std::alloc::{AllocError, Global};

/// A register's line, of its name, the words of the history's calls, its operations and what is found of it.
fn named(
    alloc: Global,
    name: &Name,
    words: &[Option<OpWord>],
    ops: &[Operation],
    finding: Finding,
) -> Result<RegisterReport, AllocError>
    ensures { IfOk result (λ report. (lines : List ℕ) → IsFinding lines ops.now finding
        → IsLine lines name.now words.now ops.now report) }
{
    Ok(RegisterReport {
        register: Name::new(alloc, name.as_str())?,
        atomicity: finding.atomicity,
        cas: counts::cas(words, ops),
        pending: finding.pending,
        reads: counts::reads(words, ops),
        writes: counts::writes(words, ops),
    })
}

/// The line of each register, in order, from what is found of them.
pub(crate) fn lines_of_registers(
    alloc: Global,
    history: &History,
    findings: Vec<Finding>,
) -> Result<Vec<RegisterReport>, AllocError>
    requires names { length history.now.registers.items ≡ length history.now.names.items }
    requires findings { AreFindings history.now findings.items }
    ensures { IfOk result (λ reports.
        AreFirstLines history.now (length history.now.names.items) reports.items) }
{
    let words = history.words.as_slice();
    let mut reports = Vec::new(alloc);
    for finding in findings {
        let name = &history.names[reports.len()];
        let ops = &history.registers[reports.len()];
        reports.push(named(alloc, name, words, ops, finding)?)?;
    }
    Ok(reports)
}
