//! From the bytes of a history to its report, by the calling thread alone.
ghost use Rattle.std.specs.Prelude.{◌≡◌, ◌<◌, length, Ok, Err, IfOk, IfErr};
ghost use Rattle.history_text.specs.declared.limits.TheConstants.{MAX_INPUT};
ghost use Rattle.history_model.specs.Table.{events_of};
ghost use Rattle.reg_intake.specs.CasHistory.Input.{history_lines};
ghost use Rattle.search_report.specs.Answer.{IsAnswer, IsRefused};
ghost use Rattle.search_report.specs.Meaning.{IsWholeOutcome};

use crate::history::report_alone;
use history_text::MAX_INPUT;
use reg_intake::Refusal;
use reg_intake::cas_history::history_alone;
use register_search::Bounds;
use report_text::search::Report;
use std::alloc::Global;

/// A report of the history in the input; [`text`](crate::text) gives the bytes that
/// [`run`](crate::run) pushes within the same bounds. It takes no right to start threads,
/// and asks the system for nothing but memory.
///
/// # Errors
/// `TooLong` if the input has more than [`MAX_INPUT`](history_text::MAX_INPUT) bytes, whatever memory there
/// is; `At` for the first faulty line if the history isn't well formed; `NoRoom` if memory ran out.
pub fn check_alone(alloc: Global, input: &[u8], bounds: Bounds) -> Result<Report, Refusal>
    // The report is one of the input: of each register it says yes, with a legal
    // order; no, if there is none; or unknown.
    ensures ok { IfOk result (λ report. IsAnswer input.now (Ok report)) }

    // A yes says that the whole history is atomic, and a no that it isn't.
    ensures atomic { IfOk result (λ report.
        IsWholeOutcome (events_of (history_lines input.now)) report.atomic) }
    ensures err { IfErr result (IsRefused input.now) }
    ensures long { MAX_INPUT < length input.now → result ≡ Err Refusal.TooLong }
{
    if input.len() > MAX_INPUT {
        return Err(Refusal::TooLong);
    }
    let history = history_alone(alloc, input)?;
    Ok(report_alone(alloc, &history, bounds)?)
}
