//! From the bytes of a history to its report, by the calling thread alone.
ghost use Rattle.std.specs.Prelude.{◌≡◌, ◌<◌, false, length, Ok, Err, IfOk, IfErr};
ghost use Rattle.history_text.specs.declared.limits.TheConstants.{MAX_INPUT};
ghost use Rattle.reg_report.specs.Answer.{IsAnswer, IsRefused};
ghost use Rattle.reg_report.specs.Meaning.{IsReport};

use crate::history::history_report;
use crate::lone_thread::find_one_by_one;
use reg_arena::Arena;
use reg_intake::{Refusal, arena_alone};
use report_text::check::Report;
use std::alloc::{AllocError, Global};

/// The report of an accepted history, made by this thread.
fn report_alone(alloc: Global, arena: &Arena) -> Result<Report, AllocError>
    ensures { IfOk result (IsReport arena.now) }
{
    let (findings, operations) = find_one_by_one(alloc, arena)?;
    history_report(alloc, arena, &findings, operations)
}

/// The report of the history in the input, the same as [`check`](crate::check) gives. It takes
/// no right to start threads and asks the system for nothing but memory, so the key of the
/// arena's hashes is a digest of all events.
///
/// # Errors
/// Those of [`check`](crate::check).
pub fn check_alone(alloc: Global, input: &[u8]) -> Result<Report, Refusal>
    ensures ok { IfOk result (λ report. IsAnswer false input.now (Ok report)) }
    ensures err { IfErr result (IsRefused false input.now) }
    ensures long { MAX_INPUT < length input.now → result ≡ Err Refusal.TooLong }
{
    let arena = arena_alone(alloc, input)?;
    Ok(report_alone(alloc, &arena)?)
}
