//! The calls that say what `regcheck` says.
ghost use Rattle.std.specs.Prelude.{◌≡◌, IfErr, IfOk, false};
ghost use Rattle.regcheck_c.specs.Called.{IsWorded};
ghost use Rattle.regcheck_c.specs.Checking.{IsAnswered, IsReported, IsSaidOf, TellsAtomic};
ghost use Rattle.reg_report.specs.Answer.{IsRefused};

use crate::answer::{Answer, NO, YES, refused};
use crate::place::{put_message, put_report};
use reg_report::{Refusal, check_alone, message, text};
use std::alloc::Global;

/// The bytes of the report, and the status that they are given with.
fn reported(alloc: Global, input: &[u8]) -> Result<(Vec<u8>, u32), Refusal>
    ensures ok { IfOk result (λ made. IsReported input.now made.0.items made.1) }
    ensures err { IfErr result (IsRefused false input.now) }
{
    let report = check_alone(alloc, input)?;
    let bytes = text(alloc, &report)?;
    Ok((bytes, if report.atomic { YES } else { NO }))
}

/// Checks the history in the input, puts its report at the beginning of `out`, and says in `answer` what came
/// of it. `out` stays as it was if there is no report, or no room for all of it.
#[unsafe(no_mangle)]
pub extern "C" fn regcheck_report(alloc: Global, input: &[u8], out: &mut [u8], answer: &mut Answer)
    // What is said, and the bytes at `out`, are those of the report or the
    // refusal of the input, or memory ran out.
    ensures answered { IsAnswered input.now out.old out.new answer.new }

    // A status of 0 or 1 says whether that history is atomic.
    ensures atomic { TellsAtomic input.now answer.new.status }
{
    *answer = match reported(alloc, input) {
        Ok((bytes, status)) => put_report(bytes.as_slice(), status, out),
        Err(refusal) => refused(refusal.number(), refusal.line(), refusal.other()),
    };
}

/// Puts the line that `regcheck` writes of a refused input at the beginning of `out`, without its end, if
/// there is room for all of it. Gives its length, or 0 if the input isn't refused, or if memory ran out.
#[unsafe(no_mangle)]
pub extern "C" fn regcheck_refusal(alloc: Global, input: &[u8], out: &mut [u8]) -> usize
    // This many bytes are put into `out`, or none.
    ensures worded { IsWorded out.old out.new result }

    // A line is given only for an input that is refused.
    ensures refused { IsSaidOf input.now result }
{
    match check_alone(alloc, input) {
        Ok(_) | Err(Refusal::NoRoom) => 0,
        Err(refusal) => put_message(message(alloc, &refusal), out),
    }
}
