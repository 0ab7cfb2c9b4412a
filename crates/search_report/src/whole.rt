//! From the bytes that a source has left to the report that a sink takes.
ghost use Rattle.std.specs.Prelude.{◌≡◌, ◌≢◌, ◌⊎◌, ◌-◌, ◌^◌, ◌<◌, ◌↔◌, ℕ, List};
ghost use Rattle.std.specs.Prelude.{length, Err, IfOk, OnOk, IfErr, IfSome};
ghost use Rattle.history_text.specs.declared.limits.TheConstants.{MAX_INPUT};
ghost use Rattle.reg_intake.specs.Ends.{IsAll};
ghost use Rattle.reg_intake.specs.CasHistory.Input.{IsRefusedOf};
ghost use Rattle.search_report.specs.Answer.{IsAnswerText};
ghost use Rattle.reg_intake.specs.Refusals.{IsOfInput};
ghost use Rattle.search_report.specs.Run.{IsRefusedWhole, Reports, ReportsBeginning, TellsAtomic};

use crate::history::report;
use crate::settings::Settings;
use byte_ends::{Sink, Source, deliver};
use reg_intake::Refusal;
use reg_intake::cas_history::history_of;
use report_text::search::{Outcome, text};
use std::alloc::Global;
use std::random::RandomSource;
use std::thread::Threads;

/// The bytes of a report of all the bytes that the source has left, and what it says of
/// the whole history; or why there is none.
fn answered<T: Threads + RandomSource + Sync, R: Source>(
    rt: &T,
    alloc: Global,
    source: &mut R,
    settings: Settings,
) -> Result<(Vec<u8>, Outcome), Refusal>
    requires { R.failed source.old < 2 ^ 64 - 1 }
    ensures ok { IfOk result (λ made. (input : List ℕ) × IsAll (R.left source.old) input
        × IsAnswerText input made.0.items made.1) }
    ensures unfailed { IfOk result (λ _. R.failed source.new ≡ R.failed source.old) }
    ensures err { IfErr result (IsRefusedOf (R.left source.old) (R.failed source.old) (R.failed source.new)) }
{
    let history = history_of(rt, alloc, source)?;
    let report = report(rt, alloc, &history, settings)?;
    let bytes = text(alloc, &report)?;
    Ok((bytes, report.atomic))
}

/// Checks the history in all the bytes that the source has left, pushes a report of it, whole, and flushes.
/// Nothing is pushed before the whole report is made.
///
/// It promises no decision: a register of which the search gives up is unknown.
///
/// # Errors
/// - `InputFailed`: a pull failed. It is answered for no other reason.
/// - `TooLong`: there were more bytes than an input may have, whatever memory there is.
/// - `At`: the history isn't well formed.
/// - `NoRoom`: memory ran out.
/// - `OutputFailed`: a push or the flush failed, and a beginning of the report is
///   out. It is answered for no other reason.
pub fn run<T: Threads + RandomSource + Sync, R: Source, W: Sink>(
    rt: &T,
    alloc: Global,
    source: &mut R,
    sink: &mut W,
    settings: Settings,
) -> Result<Outcome, Refusal>
    requires source { R.failed source.old < 2 ^ 64 - 1 }
    requires sink { W.failed sink.old < 2 ^ 64 - 1 }

    // The bytes that the sink took are a report of all the bytes that the source had left. Of each register
    // it says yes, with a legal order; no, if there is none; or unknown.
    ensures report { IfOk result (λ outcome.
        Reports (R.left source.old) (W.taken sink.old) (W.taken sink.new) outcome) }

    // A yes says that the whole history is atomic, and a no that it isn't.
    ensures atomic { IfOk result (TellsAtomic (R.left source.old)) }
    ensures flushed { OnOk result (W.is_flushed sink.new) }

    // An input that is refused is refused for all those bytes.
    ensures refused { IfErr result (λ refusal. IsOfInput refusal
        → IsRefusedWhole (R.left source.old) refusal) }
    ensures too_long { IfSome (R.left source.old) (λ input. MAX_INPUT < length input
        → (result ≡ Err Refusal.TooLong) ⊎ (result ≡ Err Refusal.InputFailed)) }

    // A failure is answered exactly if there was one.
    ensures input_failed { (result ≡ Err Refusal.InputFailed) ↔ (R.failed source.old < R.failed source.new) }
    ensures output_failed { (result ≡ Err Refusal.OutputFailed) ↔ (W.failed sink.old < W.failed sink.new) }

    // After a failure of the sink a beginning of the report is out, and
    // after any other refusal nothing was pushed.
    ensures beginning { result ≡ Err Refusal.OutputFailed
        → ReportsBeginning (R.left source.old) (W.taken sink.old) (W.taken sink.new) }
    ensures nothing { IfErr result (λ refusal. refusal ≢ Refusal.OutputFailed → sink.new ≡ sink.old) }
{
    let (bytes, outcome) = answered(rt, alloc, source, settings)?;
    match deliver(sink, &[bytes]) {
        Ok(()) => Ok(outcome),
        Err(_) => Err(Refusal::OutputFailed),
    }
}
