//! The call that says what `reglevel` says.
ghost use Rattle.std.specs.Prelude.{◌≡◌};
ghost use Rattle.regcheck_c.specs.Leveling.{IsAnswered, IsAnsweredFor, TellsLevel, TellsOf};
ghost use Rattle.regcheck_c.specs.Leveling.{status_of_outcome};

use crate::answer::{Answer, NO, UNKNOWN, YES, not_understood, refused};
use crate::asked::{asked, level};
use crate::place::put_report;
use level_report::{Outcome, Settings, check_alone};
use std::alloc::Global;

/// The status of a report that there is room for.
fn status_of(outcome: Outcome) -> u32
    ensures { result ≡ status_of_outcome outcome }
{
    match outcome {
        Outcome::Kept => YES,
        Outcome::Broken => NO,
        Outcome::Unknown => UNKNOWN,
    }
}

/// What is said of the history in the input, whose report is put into the place.
fn answered(alloc: Global, input: &[u8], settings: Settings, out: &mut [u8]) -> Answer
    ensures answered { IsAnsweredFor settings.required settings.asked input.now out.old out.new result }
    ensures level { TellsOf settings.required input.now result.status }
{
    match check_alone(alloc, input, settings) {
        Ok((bytes, outcome)) => put_report(bytes.as_slice(), status_of(outcome), out),
        Err(refusal) => refused(refusal.number(), refusal.line(), refusal.other()),
    }
}

/// Checks the history in the input against a level, puts its report at the beginning of `out`, and says in
/// `answer` what came of it: `YES` if the level holds of each register. The levels are numbered from 0:
/// atomic, regular, session, own writes, monotonic, sequential; and 6 is causal, of the whole history, which
/// alone may be `UNKNOWN`. In `more`, 1 asks for each stale read with
/// the write that it missed, and 2 for an order. `out` stays as it was if there is no report, or no room for
/// all of it.
#[unsafe(no_mangle)]
pub extern "C" fn reglevel_report(
    alloc: Global,
    input: &[u8],
    required: u32,
    more: u32,
    out: &mut [u8],
    answer: &mut Answer,
)
    // What is said, and the bytes at `out`, are those of the report or the refusal of the input, or memory
    // ran out, or a number stands for nothing.
    ensures answered { IsAnswered input.now required more out.old out.new answer.new }

    // A status of 0 or 1 says whether the level holds of that history, and 6 that it was left undecided.
    ensures level { TellsLevel input.now required answer.new.status }
{
    *answer = match (level(required), asked(more)) {
        (Some(level), Some(asked)) => {
            let settings = Settings::alone(level, asked);
            answered(alloc, input, settings, out)
        }
        _ => not_understood(),
    };
}
