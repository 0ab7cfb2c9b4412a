//! From the bytes of a source to the arena of their history.
ghost use Rattle.std.specs.Prelude.{◌≡◌, ◌-◌, ◌^◌, ◌<◌, ◌≤◌, ℕ, List, [], Option, IfOk, IfErr};
ghost use Rattle.history_text.specs.declared.limits.TheConstants.{MAX_INPUT};
ghost use Rattle.reg_intake.specs.Arena.{IsArenaOf, IsRefusedOf};
ghost use Rattle.reg_intake.specs.Ends.{IsAll};
ghost use Rattle.reg_intake.specs.Pulls.{nothing};
ghost use Rattle.reg_intake.specs.Underway.{IsStopped, MayChange};

use crate::block::first_block_size;
use crate::intake::Intake;
use crate::reader::Reader;
use crate::refusal::Refusal;
use crate::underway::Underway;
use byte_ends::Source;
use history_text::MAX_EVENTS;
use parallel::has_one_processor;
use reg_arena::{Arena, HashKey};
use std::alloc::Global;
use std::collections::VecDeque;
use std::random::RandomSource;
use std::thread::Threads;

/// The fewest bytes of an event, as of `{"process":1,"event":"crash"}` with its line feed. A fail may have
/// one less, but its call has many more.
const SHORTEST_EVENT: usize = 30;

/// For how many events an arena gets room: as many as the bytes that are held could say, if the source has no
/// more, else as many as a history may have. Room that no event fills is never touched.
fn room_for(intake: &Intake) -> usize {
    if intake.is_ended() {
        intake.held().len() / SHORTEST_EVENT + 1
    } else {
        MAX_EVENTS
    }
}

/// The arena of the history in what the source gives.
///
/// # Errors
/// `At` for the first faulty line, `NoRoom`, and `InputFailed` or `TooLong` if pulling stopped first.
fn read_arena<T: Threads + RandomSource + Sync, S: Source>(
    rt: &T,
    alloc: Global,
    source: &mut S,
    intake: &mut Intake,
) -> Result<Arena, Refusal>
    requires held { intake.old.held ≡ [] }
    requires line { intake.old.next_line ≡ 1 }
    requires pulled { intake.old.pulled ≡ nothing }
    requires failures { S.failed source.old < 2 ^ 64 - 1 }
    ensures ok { IfOk result (λ arena. (bytes : List ℕ) × IsAll (S.left source.old) bytes
        × IsArenaOf bytes arena) }
    ensures unfailed { IfOk result (λ _. S.failed source.new ≡ S.failed source.old) }
    ensures err { IfErr result
        (IsStopped (S.left source.old) (S.left source.new) (S.failed source.old)
        (S.failed source.new) intake.new.pulled) }
{
    let has_one_processor = has_one_processor(rt);
    intake.fill(source, first_block_size(rt, has_one_processor))?;
    let key = HashKey::drawn(rt, intake.held());
    let arena = Arena::empty(alloc, key, room_for(intake))?;
    let mut reader = Reader::new(alloc, has_one_processor, key);
    let ahead = VecDeque::from_vec(reader.read_and_number(rt, intake)?);
    let mut underway = Underway { arena, ahead };
    while !intake.is_ended() || !reader.unnumbered.is_empty() {
        underway = underway.turn(rt, source, intake, &mut reader)?;
    }
    let Underway { arena, mut ahead } = underway;
    Ok(arena.with_lines(alloc, ahead.make_contiguous())?)
}

/// The refusal of all that the source gives, from the one that was met first. If that is of a line, or memory
/// ran out, the rest is pulled and dropped, so that too long an input and a failure are known as such.
fn refusal_of_all<S: Source>(source: &mut S, intake: &mut Intake, first: Refusal) -> Refusal
    requires { MayChange first → (intake.old.pulled.total ≤ MAX_INPUT) × (S.failed source.old < 2 ^ 64 - 1) }
    ensures { (left : Option (List ℕ)) (failed : ℕ)
        → IsStopped left (S.left source.old) failed (S.failed source.old) intake.old.pulled first
        → IsRefusedOf left failed (S.failed source.new) result }
{
    match first {
        Refusal::TooLong | Refusal::InputFailed | Refusal::OutputFailed => first,
        Refusal::At(_) | Refusal::NoRoom => match intake.drop_rest(source) {
            Ok(()) => first,
            Err(refusal) => refusal,
        },
    }
}

/// The arena of the history in all the bytes that the source has left, or why there is none.
///
/// # Errors
/// - `InputFailed`: a pull failed. It is answered for no other reason.
/// - `TooLong`: there were more bytes than an input may have, whatever memory there is.
/// - `At`: the history isn't well formed.
/// - `NoRoom`: memory ran out.
pub fn arena_of<T: Threads + RandomSource + Sync, S: Source>(
    rt: &T,
    alloc: Global,
    source: &mut S,
) -> Result<Arena, Refusal>
    requires { S.failed source.old < 2 ^ 64 - 1 }
    ensures ok { IfOk result (λ arena. (bytes : List ℕ) × IsAll (S.left source.old) bytes
        × IsArenaOf bytes arena) }
    ensures unfailed { IfOk result (λ _. S.failed source.new ≡ S.failed source.old) }
    ensures err { IfErr result (IsRefusedOf (S.left source.old) (S.failed source.old) (S.failed source.new)) }
{
    let mut intake = Intake::new(alloc);
    match read_arena(rt, alloc, source, &mut intake) {
        Ok(arena) => Ok(arena),
        Err(first) => Err(refusal_of_all(source, &mut intake, first)),
    }
}
