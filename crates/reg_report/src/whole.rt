//! From the bytes that a source has left to the report that a sink takes.
ghost use Rattle.std.specs.Prelude.{◌≡◌, ◌≢◌, ◌⊎◌, ◌-◌, ◌^◌, ◌<◌, ◌↔◌, length};
ghost use Rattle.std.specs.Prelude.{Err, IfOk, OnOk, IfErr, IfSome};
ghost use Rattle.history_text.specs.declared.limits.TheConstants.{MAX_INPUT};
ghost use Rattle.reg_intake.specs.Refusals.{IsOfInput};
ghost use Rattle.reg_report.specs.Run.{IsRefusedWhole, Reports, ReportsBeginning, TellsAtomic};

use crate::outcome::Outcome;
use crate::pieces::{Gate, Settings};
use crate::report_bytes::text_by;
use byte_ends::{Sink, Source, deliver};
use reg_intake::{Refusal, arena_of};
use std::alloc::Global;
use std::random::RandomSource;
use std::thread::Threads;

/// Checks the history in all the bytes that the source has left, pushes its report, whole, and flushes.
/// Nothing is pushed before the whole report is made. Workers pass the gate as in [`check`](crate::check).
///
/// # Errors
/// - `InputFailed`: a pull failed. It is answered for no other reason.
/// - `TooLong`: there were more bytes than an input may have, whatever memory there is.
/// - `At`: the history isn't well formed.
/// - `NoRoom`: memory ran out.
/// - `OutputFailed`: a push or the flush failed, and a beginning of the report is
///   out. It is answered for no other reason.
pub fn run<T: Threads + RandomSource + Sync, R: Source, W: Sink, G: Gate + Sync>(
    rt: &T,
    alloc: Global,
    source: &mut R,
    sink: &mut W,
    settings: Settings,
    gate: &G,
) -> Result<Outcome, Refusal>
    requires source { R.failed source.old < 2 ^ 64 - 1 }
    requires sink { W.failed sink.old < 2 ^ 64 - 1 }

    // The bytes that the sink took are the report, as the settings ask for it,
    // of all the bytes that the source had left.
    ensures report { IfOk result (λ outcome.
        Reports settings.first (R.left source.old) (W.taken sink.old) (W.taken sink.new) outcome) }

    // It says whether that history is atomic.
    ensures atomic { IfOk result (TellsAtomic (R.left source.old)) }
    ensures flushed { OnOk result (W.is_flushed sink.new) }

    // An input that is refused is refused for all those bytes.
    ensures refused { IfErr result (λ refusal. IsOfInput refusal
        → IsRefusedWhole settings.first (R.left source.old) refusal) }
    ensures too_long { IfSome (R.left source.old) (λ input. MAX_INPUT < length input
        → (result ≡ Err Refusal.TooLong) ⊎ (result ≡ Err Refusal.InputFailed)) }

    // A failure is answered exactly if there was one.
    ensures input_failed { (result ≡ Err Refusal.InputFailed) ↔ (R.failed source.old < R.failed source.new) }
    ensures output_failed { (result ≡ Err Refusal.OutputFailed) ↔ (W.failed sink.old < W.failed sink.new) }

    // After a failure of the sink a beginning of the report is out, and
    // after any other refusal nothing was pushed.
    ensures beginning { result ≡ Err Refusal.OutputFailed
        → ReportsBeginning settings.first (R.left source.old) (W.taken sink.old) (W.taken sink.new) }
    ensures nothing { IfErr result (λ refusal. refusal ≢ Refusal.OutputFailed → sink.new ≡ sink.old) }
{
    let arena = arena_of(rt, alloc, source)?;
    let text = text_by(rt, alloc, arena, settings, gate)?;
    match deliver(sink, &text.parts) {
        Ok(()) => Ok(text.outcome),
        Err(_) => Err(Refusal::OutputFailed),
    }
}
