//! The calls that say what `regsearch` says.
ghost use Rattle.std.specs.Prelude.{◌≡◌, IfErr, IfOk};
ghost use Rattle.regcheck_c.specs.Called.{IsWorded};
ghost use Rattle.regcheck_c.specs.Searching.{IsAnswered, IsReported, IsSaidOf, TellsAtomic};
ghost use Rattle.regcheck_c.specs.Searching.{status_of_outcome};
ghost use Rattle.search_report.specs.Answer.{IsRefused};

use crate::answer::{Answer, NO, UNKNOWN, YES, refused};
use crate::bounds::bounds_of;
use crate::place::{put_message, put_report};
use register_search::Bounds;
use search_report::{Outcome, Refusal, check_alone, message, text};
use std::alloc::Global;

/// The status of a report that there is room for.
fn status_of(outcome: Outcome) -> u32
    ensures { result ≡ status_of_outcome outcome }
{
    match outcome {
        Outcome::Yes => YES,
        Outcome::No => NO,
        Outcome::Unknown => UNKNOWN,
    }
}

/// The bytes of a report, and the status that they are given with.
fn reported(alloc: Global, input: &[u8], bounds: Bounds) -> Result<(Vec<u8>, u32), Refusal>
    ensures ok { IfOk result (λ made. IsReported input.now made.0.items made.1) }
    ensures err { IfErr result (IsRefused input.now) }
{
    let report = check_alone(alloc, input, bounds)?;
    let bytes = text(alloc, &report)?;
    Ok((bytes, status_of(report.atomic)))
}

/// Checks the history in the input within these bounds, puts a report of it at the beginning of `out`, and
/// says in `answer` what came of it. `out` stays as it was if there is no report, or no room for all of
/// it. A bound of 0 is the program's default.
#[unsafe(no_mangle)]
pub extern "C" fn regsearch_report(
    alloc: Global,
    input: &[u8],
    steps: u64,
    configurations: usize,
    out: &mut [u8],
    answer: &mut Answer,
)
    // What is said, and the bytes at `out`, are those of a report or the
    // refusal of the input, or memory ran out.
    ensures answered { IsAnswered input.now out.old out.new answer.new }

    // A status of 0 or 1 says whether that history is atomic.
    ensures atomic { TellsAtomic input.now answer.new.status }
{
    *answer = match reported(alloc, input, bounds_of(steps, configurations)) {
        Ok((bytes, status)) => put_report(bytes.as_slice(), status, out),
        Err(refusal) => refused(refusal.number(), refusal.line(), refusal.other()),
    };
}

/// Puts the line that `regsearch` writes of a refused input at the beginning of `out`, without its end, if
/// there is room for all of it. Gives its length, or 0 if the input isn't refused, or if memory ran out.
#[unsafe(no_mangle)]
pub extern "C" fn regsearch_refusal(alloc: Global, input: &[u8], out: &mut [u8]) -> usize
    // So many bytes are put into `out`, or none.
    ensures worded { IsWorded out.old out.new result }

    // Some are said only of an input that is refused.
    ensures refused { IsSaidOf input.now result }
{
    match check_alone(alloc, input, bounds_of(1, 1)) {
        Ok(_) | Err(Refusal::NoRoom) => 0,
        Err(refusal) => put_message(message(alloc, &refusal), out),
    }
}
