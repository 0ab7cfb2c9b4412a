//! From the bytes that a source has left to the report that a sink takes.
ghost use Rattle.std.specs.Prelude.{◌≡◌, ◌≢◌, ◌⊎◌, ◌-◌, ◌^◌, ◌<◌, ◌↔◌, ℕ, List};
ghost use Rattle.std.specs.Prelude.{length, Err, IfOk, OnOk, IfErr, IfSome};
ghost use Rattle.history_text.specs.declared.limits.TheConstants.{MAX_INPUT};
ghost use Rattle.reg_intake.specs.Arena.{IsRefusedOf};
ghost use Rattle.reg_intake.specs.Ends.{IsAll};
ghost use Rattle.level_report.specs.Answer.{IsAnswerText, IsOutcome, IsAnswerOf};
ghost use Rattle.level_report.specs.Registers.{AreLines};
ghost use Rattle.reg_intake.specs.Refusals.{IsOfInput};
ghost use Rattle.level_report.specs.Run.{IsRefusedWhole, Reports, ReportsBeginning, Tells};

use crate::causal::causal_lines;
use crate::outcome::{Outcome, outcome_for};
use crate::registers::register_lines;
use crate::settings::Settings;
use crate::totals::{all_hold, totals};
use byte_ends::{Sink, Source, deliver};
use reg_arena::Arena;
use reg_intake::{Refusal, arena_of};
use report_text::level::{LevelName, LevelsReport, RegisterLevels, text};
use std::alloc::{AllocError, Global};
use std::random::RandomSource;
use std::thread::Threads;

/// The bytes of the report whose lines of registers are these, and whether the history kept what is required.
pub(crate) fn answer_of(
    alloc: Global,
    arena: &Arena,
    registers: Vec<RegisterLevels>,
    settings: Settings,
) -> Result<(Vec<u8>, Outcome), AllocError>
    requires lines { AreLines arena.now settings.asked registers.items }
    requires few { length registers.items < 2 ^ 21 }
    ensures { IfOk result (λ made.
        IsAnswerOf settings.asked settings.required arena.now made.0.items made.1) }
{
    // Whatever an arena has is recorded; asking it for the number of its events says so.
    let _events = arena.event_count();
    let atomic = all_hold(&registers, LevelName::Atomic);
    let causal = causal_lines(alloc, arena, settings.asked().orders, atomic)?;
    let totals = totals(&registers, causal);
    let report = LevelsReport { registers, totals };
    let bytes = text(alloc, &report)?;
    Ok((bytes, outcome_for(&report.totals, settings.required())))
}

/// The bytes of the report of all the bytes that the source has left, and whether the history
/// kept what is required; or why there is none.
fn answered<T: Threads + RandomSource + Sync, R: Source>(
    rt: &T,
    alloc: Global,
    source: &mut R,
    settings: Settings,
) -> Result<(Vec<u8>, Outcome), Refusal>
    requires { R.failed source.old < 2 ^ 64 - 1 }
    ensures ok { IfOk result (λ made. (input : List ℕ) × IsAll (R.left source.old) input
        × IsAnswerText settings.asked input made.0.items × IsOutcome settings.required input made.1) }
    ensures unfailed { IfOk result (λ _. R.failed source.new ≡ R.failed source.old) }
    ensures err { IfErr result (IsRefusedOf (R.left source.old) (R.failed source.old) (R.failed source.new)) }
{
    let arena = arena_of(rt, alloc, source)?;
    let registers = register_lines(rt, alloc, &arena, settings)?;
    Ok(answer_of(alloc, &arena, registers, settings)?)
}

/// Checks the history in all the bytes that the source has left, pushes its report on levels, whole, and
/// flushes. Nothing is pushed before the whole report is made. No register is left undecided.
///
/// # Errors
/// - `InputFailed`: a pull failed. It is answered for no other reason.
/// - `TooLong`: there were more bytes than an input may have, whatever memory there is.
/// - `At`: the history isn't well formed.
/// - `NoRoom`: memory ran out.
/// - `OutputFailed`: a push or the flush failed, and a beginning of the report is
///   out. It is answered for no other reason.
pub fn run<T: Threads + RandomSource + Sync, R: Source, W: Sink>(
    rt: &T,
    alloc: Global,
    source: &mut R,
    sink: &mut W,
    settings: Settings,
) -> Result<Outcome, Refusal>
    requires source { R.failed source.old < 2 ^ 64 - 1 }
    requires sink { W.failed sink.old < 2 ^ 64 - 1 }

    // The bytes that the sink took are the report of all the bytes that the source had left. Of each
    // register it says of each level yes exactly if a legal order keeps it (of regular, if no read is stale),
    // the counts, and the gap. Of the whole it says yes only if a causal order of the writes exists, no only
    // if none does, and unknown only if there are many sessions and operations. The outcome is that of the
    // same history.
    ensures report { IfOk result (λ outcome. Reports settings.asked settings.required (R.left source.old)
        (W.taken sink.old) (W.taken sink.new) outcome) }

    // What is required was kept or it wasn't; only causal may be left undecided.
    ensures level { IfOk result (Tells settings.required (R.left source.old)) }
    ensures flushed { OnOk result (W.is_flushed sink.new) }

    // An input that is refused is refused for all those bytes.
    ensures refused { IfErr result (λ refusal. IsOfInput refusal
        → IsRefusedWhole settings.asked (R.left source.old) refusal) }
    ensures too_long { IfSome (R.left source.old) (λ input. MAX_INPUT < length input
        → (result ≡ Err Refusal.TooLong) ⊎ (result ≡ Err Refusal.InputFailed)) }

    // A failure is answered exactly if there was one.
    ensures input_failed { (result ≡ Err Refusal.InputFailed) ↔ (R.failed source.old < R.failed source.new) }
    ensures output_failed { (result ≡ Err Refusal.OutputFailed) ↔ (W.failed sink.old < W.failed sink.new) }

    // After a failure of the sink a beginning of the report is out, and
    // after any other refusal nothing was pushed.
    ensures beginning { result ≡ Err Refusal.OutputFailed
        → ReportsBeginning settings.asked (R.left source.old) (W.taken sink.old) (W.taken sink.new) }
    ensures nothing { IfErr result (λ refusal. refusal ≢ Refusal.OutputFailed → sink.new ≡ sink.old) }
{
    let (bytes, outcome) = answered(rt, alloc, source, settings)?;
    match deliver(sink, &[bytes]) {
        Ok(()) => Ok(outcome),
        Err(_) => Err(Refusal::OutputFailed),
    }
}
