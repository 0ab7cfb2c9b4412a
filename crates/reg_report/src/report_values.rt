//! From the bytes of a history to its report.
ghost use Rattle.std.specs.Prelude.{◌≡◌, ◌<◌, length, Ok, Err, IfOk, IfErr};
ghost use Rattle.history_text.specs.declared.limits.TheConstants.{MAX_INPUT};
ghost use Rattle.reg_report.specs.Answer.{IsAnswer, IsRefused};
ghost use Rattle.reg_report.specs.First.{IsReportBy};

use crate::findings::find;
use crate::first::report_of_first;
use crate::history::history_report_in_parts;
use crate::pieces::{Gate, Settings};
use crate::slice::SliceSource;
use history_text::MAX_INPUT;
use reg_arena::Arena;
use reg_intake::{Refusal, arena_of};
use report_text::check::Report;
use std::alloc::{AllocError, Global};
use std::random::RandomSource;
use std::thread::Threads;

/// The report of an accepted history that the settings ask for.
fn report_by<R: Threads + Sync, G: Gate + Sync>(
    rt: &R,
    alloc: Global,
    arena: &Arena,
    settings: Settings,
    gate: &G,
) -> Result<Report, AllocError>
    ensures { IfOk result (IsReportBy settings.first arena.now) }
{
    if settings.first() {
        report_of_first(rt, alloc, arena, settings, gate)
    } else {
        let (findings, operations) = find(rt, alloc, arena, settings, gate)?;
        history_report_in_parts(rt, alloc, arena, &findings, operations)
    }
}

/// The report of the history in the input: of the whole of it, or of its first register that isn't
/// atomic, as the settings ask. Workers do its pieces, past the gate. Neither their number, nor
/// the cut, nor the gate changes the report.
///
/// # Errors
/// `TooLong` if the input has more than [`MAX_INPUT`](history_text::MAX_INPUT) bytes, whatever memory there
/// is; `At` for the first faulty line if the history isn't well formed; `NoRoom` if memory ran out. What was
/// made is dropped then.
pub fn check<R: Threads + RandomSource + Sync, G: Gate + Sync>(
    rt: &R,
    alloc: Global,
    input: &[u8],
    settings: Settings,
    gate: &G,
) -> Result<Report, Refusal>
    ensures ok { IfOk result (λ report. IsAnswer settings.first input.now (Ok report)) }
    ensures err { IfErr result (IsRefused settings.first input.now) }
    ensures long { MAX_INPUT < length input.now → result ≡ Err Refusal.TooLong }
{
    if input.len() > MAX_INPUT {
        return Err(Refusal::TooLong);
    }
    let arena = arena_of(rt, alloc, &mut SliceSource::new(input))?;
    Ok(report_by(rt, alloc, &arena, settings, gate)?)
}
