//! From a report to its bytes.
ghost use Rattle.std.specs.Prelude.{◌≡◌, ◌++◌, IfOk, OnOk};
ghost use Rattle.serde_json.specs.Written.{compact_text};
ghost use Rattle.report_text.specs.JsonFields.Fields.{line_text};
ghost use Rattle.report_text.specs.Check.Text.{register_json, registers_text, summary_json, report_text};

use crate::check::report::{RegReport, Report};
use crate::check::send::Summary;
use crate::json_fields::put_line;
use std::alloc::{AllocError, Global};

/// The line of a register, without a line feed.
fn register_line(alloc: Global, reg: &RegReport) -> Result<Vec<u8>, AllocError>
    ensures { IfOk result (λ line. line.items ≡ compact_text (register_json reg.now)) }
{
    match serde_json::to_vec(alloc, reg) {
        Ok(line) => Ok(line),
        Err(_) => Err(AllocError),
    }
}

/// The last line of a report, without a line feed.
pub(crate) fn summary_line(alloc: Global, report: &Report) -> Result<Vec<u8>, AllocError>
    ensures { IfOk result (λ line. line.items ≡ compact_text (summary_json report.now)) }
{
    match serde_json::to_vec(alloc, &Summary { report }) {
        Ok(line) => Ok(line),
        Err(_) => Err(AllocError),
    }
}

/// Appends the line of a register and a line feed to `out`.
///
/// # Errors
/// If memory runs out. What `out` holds then is left open.
pub fn put_register_line(
    alloc: Global,
    out: &mut Vec<u8>,
    reg: &RegReport,
) -> Result<(), AllocError>
    ensures { OnOk result (out.new.items ≡ out.old.items ++ line_text (register_json reg.now)) }
{
    put_line(out, register_line(alloc, reg)?.as_slice())
}

/// The lines of some registers, one after another.
fn register_lines(alloc: Global, regs: &[RegReport]) -> Result<Vec<u8>, AllocError>
    ensures { IfOk result (λ bytes. bytes.items ≡ registers_text regs.now) }
{
    let mut out = Vec::new(alloc);
    for reg in regs {
        put_register_line(alloc, &mut out, reg)?;
    }
    Ok(out)
}

/// The bytes of a report: a line of compact JSON for each register, then the summary.
///
/// # Errors
/// If memory runs out.
pub fn text(alloc: Global, report: &Report) -> Result<Vec<u8>, AllocError>
    ensures { IfOk result (λ bytes. bytes.items ≡ report_text report.now) }
{
    let mut out = register_lines(alloc, report.regs.as_slice())?;
    put_line(&mut out, summary_line(alloc, report)?.as_slice())?;
    Ok(out)
}
