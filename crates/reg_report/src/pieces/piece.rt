//! What is done for one piece of work.
ghost use Rattle.std.specs.Prelude.{◌≡◌, ◌<◌, length, IfOk, IfSome};
ghost use Rattle.reg_lamport.specs.Reads.{IsReadList};
ghost use Rattle.reg_report.specs.Pieces.Looks.{piece_of};
ghost use Rattle.reg_report.specs.Pieces.Plan.{IsPieceAt, IsSomePlan};

use crate::pieces::bad_reads::BadReads;
use crate::pieces::judgement::{Judgement, judge};
use crate::pieces::look::{Look, look_at};
use crate::pieces::tasks::{Plan, Task};
use reg_arena::Arena;
use reg_lamport::ReadList;
use std::alloc::{AllocError, Global};

/// What is done for one piece of work.
#[derive(Drop)]
pub enum Piece {
    /// The order or the fault of a register.
    Judged(Judgement),
    /// The first bad reads of a cut.
    Reads(BadReads),
    /// If only the first register that isn't atomic is asked for: this one is atomic.
    Clean,
    /// If only that one is asked for: a lower register than this one isn't atomic.
    Skipped,
}

impl Look {
    /// The piece of work that it is.
    pub(crate) fn into_piece(self) -> Piece
        ensures { result ≡ piece_of self }
    {
        match self {
            Look::Clean => Piece::Clean,
            Look::Faulty(fault) => Piece::Judged(Judgement::Faulty(fault)),
            Look::Skipped => Piece::Skipped,
        }
    }
}

/// Does the piece of this number, as if no lower register were known that isn't atomic. The list of reads
/// that a cut needs is kept.
pub(crate) fn piece_at(
    alloc: Global,
    arena: &Arena,
    plan: &Plan,
    number: u64,
    kept: &mut Option<ReadList>,
) -> Result<Piece, AllocError>
    requires plan { IsSomePlan arena.now plan.now }
    requires number { number < length plan.now.tasks }
    requires kept { IfSome kept.old (IsReadList arena.now) }
    ensures piece { IfOk result (IsPieceAt arena.now plan.now.tasks number) }
    ensures kept { IfSome kept.new (IsReadList arena.now) }
{
    match plan.task(number) {
        Task::Judge(register) => Ok(Piece::Judged(judge(alloc, arena, register)?)),
        Task::Reads { register, from, to } => {
            let bad = BadReads::of_cut(alloc, arena, register, from, to, kept)?;
            Ok(Piece::Reads(bad))
        }
        Task::First(register) => {
            Ok(look_at(arena, register, u64::from(register.0)).into_piece())
        }
    }
}
