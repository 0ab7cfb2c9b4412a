//! An arena underway: while the lines of one block are taken in, those of the next are numbered, and those of
//! the one after are read.
ghost use Rattle.std.specs.Prelude.{◌≡◌, ◌+◌, ◌-◌, ◌^◌, ◌<◌, ◌≤◌, ◌++◌, ℕ, List, [], Option};
ghost use Rattle.std.specs.Prelude.{Some, true, false, drop, length, IfOk, IfErr};
ghost use Rattle.history_text.specs.declared.limits.TheConstants.{MAX_INPUT};
ghost use Rattle.reg_intake.specs.Intake.{FitsLimit};
ghost use Rattle.reg_intake.specs.Pulls.{IsFurther};
ghost use Rattle.reg_intake.specs.Underway.{AreNumberedBehind, IsGrown, IsLast, IsReadOn};
ghost use Rattle.reg_intake.specs.Underway.{IsStopped, IsUnderway, MayGrow, lines_in};

use crate::block::block_size;
use crate::intake::Intake;
use crate::reader::Reader;
use crate::refusal::Refusal;
use byte_ends::Source;
use history_model::BuildError;
use parallel::both_mut;
use reg_arena::{Arena, NumberedLines};
use std::alloc::{AllocError, Global};
use std::collections::VecDeque;
use std::slice::from_ref;
use std::sync::atomic::{AtomicBool, Ordering};
use std::thread::Threads;

/// How many parts of lines may wait for the arena once the next ones are read: enough to give the thread that
/// builds it work while the threads that read start late, and few enough to take little memory. A block of
/// short lines has some six.
const MOST_WAITING: usize = 4;

/// An arena, and how many parts of the lines after it were taken into it.
#[derive(Drop)]
struct Grown {
    arena: Arena,
    count: usize,
}

/// Takes lines into the arena, part by part: all but the last [`MOST_WAITING`] parts, and of those as many as
/// it can until the next lines are read. The arena is taken out of its place, since `both_mut` only lends its
/// closures what they use.
fn take_in(
    alloc: Global,
    arena: &mut Option<Arena>,
    parts: &[NumberedLines],
    is_read: &AtomicBool,
) -> Result<Grown, BuildError>
    requires { MayGrow arena.old parts.now }
    ensures { IsGrown arena.old parts.now result }
{
    let Some(mut built) = arena.take() else {
        unreachable!()
    };
    let mut count = 0;
    while count < parts.len()
        && (MOST_WAITING < parts.len() - count || !is_read.load(Ordering::SeqCst))
    {
        built = built.with_lines(alloc, from_ref(&parts[count]))?;
        count += 1;
    }
    Ok(Grown {
        arena: built,
        count,
    })
}

/// Has another thread read on, and meanwhile takes in the lines that have numbers. On one processor it does
/// one after the other, and takes in all.
fn read_and_take_in<T: Threads + Sync>(
    rt: &T,
    intake: &mut Intake,
    reader: &mut Reader,
    arena: Arena,
    parts: &[NumberedLines],
) -> (
    Result<Vec<NumberedLines>, AllocError>,
    Result<Grown, BuildError>,
)
    requires room { intake.old.next_line + length intake.old.held ≤ MAX_INPUT + 1 }
    requires grows { MayGrow (Some arena) parts.now }
    ensures read { IfOk result.0 (λ numbered.
        IsReadOn intake.old intake.new reader.old reader.new (lines_in numbered.items)) }
    ensures numbered { IfOk result.0 (λ numbered.
        AreNumberedBehind reader.old.numbering reader.new.numbering numbered.items) }
    ensures none { IfOk result.0 (λ _. intake.old.held ≡ [] → reader.new.unnumbered.items ≡ []) }
    ensures pulled { intake.new.pulled ≡ intake.old.pulled }
    ensures grown { IsGrown (Some arena) parts.now result.1 }
{
    let alloc = reader.alloc;
    let is_read = AtomicBool::new(false);
    let mut arena = Some(arena);
    if reader.has_one_processor {
        let grown = take_in(alloc, &mut arena, parts, &is_read);
        return (reader.read_on(rt, intake), grown);
    }
    both_mut(
        rt,
        &mut ||
            requires { intake.now.next_line + length intake.now.held ≤ MAX_INPUT + 1 }
        {
            let numbered = reader.read_on(rt, intake);
            is_read.store(true, Ordering::SeqCst);
            numbered
        },
        &mut || take_in(alloc, &mut arena, parts, &is_read),
    )
}

/// An arena of the lines so far, and the lines that come next, which are numbered, in parts.
#[derive(Drop)]
pub(crate) struct Underway {
    pub(crate) arena: Arena,
    pub(crate) ahead: VecDeque<NumberedLines>,
}

/// Moves the parts after the first `count` out of the list, and puts those that were numbered now after them.
fn still_ahead(
    ahead: &mut VecDeque<NumberedLines>,
    count: usize,
    numbered: Vec<NumberedLines>,
) -> Result<VecDeque<NumberedLines>, AllocError>
    requires { count ≤ length ahead.old.items }
    ensures { IfOk result (λ left. left.items ≡ drop count ahead.old.items ++ numbered.items) }
{
    let mut left = ahead.split_off(count)?;
    left.append(&mut VecDeque::from_vec(numbered))?;
    Ok(left)
}

impl Underway {
    /// Pulls the next bytes, and has their lines read while those that were read before are numbered and
    /// taken in.
    ///
    /// # Errors
    /// `InputFailed` or `TooLong` if pulling stopped, else `NoRoom` if memory ran out, else `At` for a
    /// refused line.
    pub(crate) fn turn<T: Threads + Sync, S: Source>(
        self,
        rt: &T,
        source: &mut S,
        intake: &mut Intake,
        reader: &mut Reader,
    ) -> Result<Self, Refusal>
        requires grows { MayGrow (Some self.arena) self.ahead.items }
        requires fits { FitsLimit intake.old }
        requires failures { S.failed source.old < 2 ^ 64 - 1 }
        ensures ok { IfOk result (λ after. (left : Option (List ℕ)) (failed : ℕ)
            → IsUnderway left (S.left source.old) failed (S.failed source.old) intake.old reader.old self
            → IsUnderway left (S.left source.new) failed (S.failed source.new) intake.new reader.new after) }
        ensures further { IfOk result (λ _. intake.old.pulled.is_ended ≡ false
            → IsFurther intake.old.pulled intake.new.pulled) }
        ensures last { IfOk result (λ _. IsLast intake.old → (intake.new.pulled.is_ended ≡ true)
            × (reader.new.unnumbered.items ≡ [])) }
        ensures err { IfErr result (λ refusal. (left : Option (List ℕ)) (failed : ℕ)
            → IsUnderway left (S.left source.old) failed (S.failed source.old) intake.old reader.old self
            → IsStopped left (S.left source.new) failed (S.failed source.new) intake.new.pulled refusal) }
    {
        let held = intake.held().len();
        let enough = held + block_size(reader.has_one_processor, held);
        intake.fill(source, enough)?;
        let Underway { arena, mut ahead } = self;
        let (numbered, grown) = read_and_take_in(
            rt,
            intake,
            reader,
            arena,
            ahead.make_contiguous(),
        );
        let numbered = numbered?;
        let Grown { arena, count } = grown?;
        let left = still_ahead(&mut ahead, count, numbered)?;
        reader.spent = ahead;
        Ok(Underway { arena, ahead: left })
    }
}
