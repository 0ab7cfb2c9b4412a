//! From bytes in memory to the arena of their history, by the calling thread alone.
ghost use Rattle.std.specs.Prelude.{◌≡◌, ◌<◌, length, Err, IfOk, IfErr, Some};
ghost use Rattle.history_text.specs.declared.limits.TheConstants.{MAX_INPUT};
ghost use Rattle.reg_intake.specs.Arena.{IsArenaOf, IsRefusedOf};

use crate::refusal::Refusal;
use history_text::{MAX_INPUT, read_lines_alone};
use reg_arena::Arena;
use std::alloc::Global;

/// The arena of the history in the input, the same as [`arena_of`](crate::arena_of) gives of it, or why there
/// is none. It takes no right to start threads and asks the system for nothing but memory, so the key of the
/// arena's hashes is a digest of all events.
///
/// # Errors
/// `TooLong` if the input has more than [`MAX_INPUT`](history_text::MAX_INPUT) bytes, whatever memory there
/// is; `At` for the first faulty line; `NoRoom` if memory ran out.
pub fn arena_alone(alloc: Global, input: &[u8]) -> Result<Arena, Refusal>
    ensures ok { IfOk result (IsArenaOf input.now) }
    ensures err { IfErr result (IsRefusedOf (Some input.now) 0 0) }
    ensures long { MAX_INPUT < length input.now → result ≡ Err Refusal.TooLong }
{
    if input.len() > MAX_INPUT {
        return Err(Refusal::TooLong);
    }
    let lines = read_lines_alone(alloc, input)?;
    let arena = Arena::build(alloc, lines)?;
    Ok(arena)
}
