//! From the bytes of a history to the bytes of its report, by the calling thread alone.
ghost use Rattle.std.specs.Prelude.{◌≡◌, ◌<◌, length, Err, IfOk, IfErr};
ghost use Rattle.history_text.specs.declared.limits.TheConstants.{MAX_INPUT};
ghost use Rattle.level_report.specs.Answer.{IsAnswerText, IsOutcome, IsRefused};

use crate::outcome::Outcome;
use crate::registers::register_lines_alone;
use crate::settings::Settings;
use crate::whole::answer_of;
use reg_intake::{Refusal, arena_alone};
use std::alloc::Global;

/// The bytes of the report that [`run`](crate::run) makes of the history in the input, and whether that kept
/// what is required. It takes no right to start threads, whatever the number of workers.
///
/// # Errors
/// `TooLong` if the input has more than [`MAX_INPUT`](history_text::MAX_INPUT) bytes, whatever memory there
/// is; `At` if the history isn't well formed; `NoRoom` if memory ran out.
pub fn check_alone(
    alloc: Global,
    input: &[u8],
    settings: Settings,
) -> Result<(Vec<u8>, Outcome), Refusal>
    // The report is that of the input, and so is what came of what is required.
    ensures ok { IfOk result (λ made. IsAnswerText settings.asked input.now made.0.items
        × IsOutcome settings.required input.now made.1) }
    ensures err { IfErr result (IsRefused settings.asked input.now) }
    ensures long { MAX_INPUT < length input.now → result ≡ Err Refusal.TooLong }
{
    let arena = arena_alone(alloc, input)?;
    let registers = register_lines_alone(alloc, &arena, settings.asked())?;
    Ok(answer_of(alloc, &arena, registers, settings)?)
}
