//! From a report to its bytes.
ghost use Rattle.std.specs.Prelude.{◌≡◌, IfOk};
ghost use Rattle.serde_json.specs.Written.{compact_text};
ghost use Rattle.report_text.specs.Level.Text.{register_json, registers_text, report_text, totals_json};

use crate::json_fields::put_line;
use crate::level::report::{LevelsReport, RegisterLevels, Totals};
use std::alloc::{AllocError, Global};

/// The line of a register, without a line feed.
fn register_line(alloc: Global, reg: &RegisterLevels) -> Result<Vec<u8>, AllocError>
    ensures { IfOk result (λ line. line.items ≡ compact_text (register_json reg.now)) }
{
    match serde_json::to_vec(alloc, reg) {
        Ok(line) => Ok(line),
        Err(_) => Err(AllocError),
    }
}

/// The last line of a report, without a line feed.
fn totals_line(alloc: Global, totals: &Totals) -> Result<Vec<u8>, AllocError>
    ensures { IfOk result (λ line. line.items ≡ compact_text (totals_json totals.now)) }
{
    match serde_json::to_vec(alloc, totals) {
        Ok(line) => Ok(line),
        Err(_) => Err(AllocError),
    }
}

/// The lines of some registers, one after another.
fn register_lines(alloc: Global, regs: &[RegisterLevels]) -> Result<Vec<u8>, AllocError>
    ensures { IfOk result (λ bytes. bytes.items ≡ registers_text regs.now) }
{
    let mut out = Vec::new(alloc);
    for reg in regs {
        put_line(&mut out, register_line(alloc, reg)?.as_slice())?;
    }
    Ok(out)
}

/// The bytes of a report: a line of compact JSON for each register, then the summary.
///
/// # Errors
/// If memory runs out.
pub fn text(alloc: Global, report: &LevelsReport) -> Result<Vec<u8>, AllocError>
    ensures { IfOk result (λ bytes. bytes.items ≡ report_text report.now) }
{
    let mut out = register_lines(alloc, report.registers.as_slice())?;
    put_line(&mut out, totals_line(alloc, &report.totals)?.as_slice())?;
    Ok(out)
}
