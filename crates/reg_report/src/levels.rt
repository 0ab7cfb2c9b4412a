//! Whether a register is safe and regular, with the reads that break it.
ghost use Rattle.std.specs.Prelude.{◌≡◌, ◌+◌, ◌<◌, ℕ, length, drop};
ghost use Rattle.history_model.specs.Lamport.{HasSingleWriter, completed_reads};
ghost use Rattle.reg_lamport.specs.Levels.{IsFirstBadNamed};
ghost use Rattle.reg_report.specs.Cuts.{HasCuts, HasCutsOf, cuts_ahead};
ghost use Rattle.reg_report.specs.Levels.{AreLevels, IsLevelFinding};
ghost use Rattle.history_model.specs.Operations.{register_of};
ghost use Rattle.reg_report.specs.Pieces.BadReads.{AreFirstBad};
ghost use Rattle.reg_report.specs.Pieces.Plan.{IsPlan};
ghost use Rattle.reg_report.specs.Pieces.Slots.{AreDoneFrom};

use crate::fault_lines::line;
use crate::pieces::{BadReads, Pieces, Plan};
use history_model::{EvId, Oper, RegId};
use reg_arena::Arena;
use reg_lamport::Level;
use report_text::check::Verdict;

/// What is said of one level: the verdict, and if it is no, the line of the read that breaks the level.
#[derive(Clone, Copy, Debug, PartialEq, Eq)]
pub(crate) struct LevelFinding {
    pub(crate) verdict: Verdict,
    pub(crate) read: Option<u32>,
}

/// What is said of both levels.
#[derive(Clone, Copy, Debug, PartialEq, Eq)]
pub(crate) struct Levels {
    pub(crate) safe: LevelFinding,
    pub(crate) regular: LevelFinding,
}

/// One level of a register with a single writer, by the first of its completed reads that breaks it.
fn level_finding(arena: &Arena, register: RegId, level: Level, first: Option<EvId>) -> LevelFinding
    requires writer { HasSingleWriter (register_of arena.now register.0) }
    requires first { IsFirstBadNamed arena.now register.0 level 0
        (length (completed_reads (register_of arena.now register.0))) first }
    ensures { IsLevelFinding level (register_of arena.now register.0) result }
{
    match first {
        Some(read) => LevelFinding {
            verdict: Verdict::No,
            read: Some(line(arena, Oper::Called(read))),
        },
        None => LevelFinding {
            verdict: Verdict::Yes,
            read: None,
        },
    }
}

/// Both levels of a register with a single writer, by the first of its completed reads that break them.
pub(crate) fn levels_by(arena: &Arena, register: RegId, first: BadReads) -> Levels
    requires writer { HasSingleWriter (register_of arena.now register.0) }
    requires first { AreFirstBad arena.now register.0 0
        (length (completed_reads (register_of arena.now register.0))) first }
    ensures { AreLevels (register_of arena.now register.0) result }
{
    Levels {
        safe: level_finding(arena, register, Level::Safe, first.safe),
        regular: level_finding(arena, register, Level::Regular, first.regular),
    }
}

/// Both levels of a register that several processes write.
pub(crate) fn several_writers() -> Levels
    ensures { (r : _) → (HasSingleWriter r → ⊥) → AreLevels r result }
{
    let several = LevelFinding {
        verdict: Verdict::SeveralWriters,
        read: None,
    };
    Levels {
        safe: several,
        regular: several,
    }
}

/// The first bad reads of a register with a single writer, from the pieces of its cuts, which stand
/// from `start` on; and the number after them.
fn first_bad_of(
    arena: &Arena,
    plan: &Plan,
    register: RegId,
    pieces: &Pieces,
    start: usize,
) -> (BadReads, usize)
    requires plan { (cut : ℕ) × IsPlan arena.now cut plan.now }
    requires done { AreDoneFrom start arena.now plan.now.tasks pieces.now }
    requires cuts { HasCuts register.0 (length (completed_reads (register_of arena.now register.0)))
        (drop start plan.now.tasks) }
    ensures first { AreFirstBad arena.now register.0 0
        (length (completed_reads (register_of arena.now register.0))) result.0 }
    ensures next { result.1 ≡ start + cuts_ahead (drop start plan.now.tasks) }
{
    let mut first = BadReads::none();
    let mut next = start;
    while plan.is_cut(next) {
        first = first.or(pieces.bad_reads(next));
        next += 1;
    }
    (first, next)
}

/// Both levels of a register, from the pieces of its reads, which stand
/// from `start` on; and the number after them.
pub(crate) fn levels_of(
    arena: &Arena,
    plan: &Plan,
    register: RegId,
    pieces: &Pieces,
    start: usize,
) -> (Levels, usize)
    requires register { register.0 < length arena.now.names }
    requires plan { (cut : ℕ) × IsPlan arena.now cut plan.now }
    requires done { AreDoneFrom start arena.now plan.now.tasks pieces.now }
    requires cuts { HasCutsOf register.0 plan.now (drop start plan.now.tasks) }
    ensures levels { AreLevels (register_of arena.now register.0) result.0 }
    ensures next { result.1 ≡ start + cuts_ahead (drop start plan.now.tasks) }
{
    match plan.count(register) {
        None => (several_writers(), start),
        Some(_count) => {
            let (first, next) = first_bad_of(arena, plan, register, pieces, start);
            (levels_by(arena, register, first), next)
        }
    }
}
