//! From a source to the history of all its bytes.
ghost use Rattle.std.specs.Prelude.{◌≡◌, ◌-◌, ◌^◌, ◌<◌, ℕ, List, IfErr, IfOk};
ghost use Rattle.reg_intake.specs.Ends.{IsAll};
ghost use Rattle.reg_intake.specs.CasHistory.Input.{IsHistoryOfInput, IsRefusedOf};

use crate::cas_history::history::History;
use crate::cas_history::lines::history_in;
use crate::{Refusal, all_bytes};
use byte_ends::Source;
use std::alloc::Global;
use std::random::RandomSource;
use std::thread::Threads;

/// The history in all the bytes that the source has left, or why there is none. Several threads read many
/// lines.
///
/// # Errors
/// - `InputFailed`: a pull failed. It is answered for no other reason.
/// - `TooLong`: there were more bytes than an input may have, whatever memory there is.
/// - `At`: the history isn't well formed.
/// - `NoRoom`: memory ran out.
pub fn history_of<T: Threads + RandomSource + Sync, S: Source>(
    rt: &T,
    alloc: Global,
    source: &mut S,
) -> Result<History, Refusal>
    requires { S.failed source.old < 2 ^ 64 - 1 }
    ensures ok { IfOk result (λ history. (bytes : List ℕ) × IsAll (S.left source.old) bytes
        × IsHistoryOfInput bytes history) }
    ensures unfailed { IfOk result (λ _. S.failed source.new ≡ S.failed source.old) }
    ensures err { IfErr result (IsRefusedOf (S.left source.old) (S.failed source.old) (S.failed source.new)) }
{
    let bytes = all_bytes(alloc, source)?;
    Ok(history_in(rt, alloc, &bytes)?)
}
