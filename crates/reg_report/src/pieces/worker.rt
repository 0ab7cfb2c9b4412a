//! One worker: it draws pieces from a board and does them.
ghost use Rattle.std.specs.Prelude.{◌≡◌, ◌<◌, ◌≤◌, length, IfSome, IsErr, OnOk};
ghost use Rattle.job_board.specs.Numbers.{times};
ghost use Rattle.job_board.specs.declared.limits.TheConstants.{MAX_JOBS};
ghost use Rattle.reg_lamport.specs.Reads.{IsReadList};
ghost use Rattle.reg_report.specs.Pieces.Plan.{IsSomePlan};
ghost use Rattle.reg_report.specs.Pieces.Work.{AddsPiece, AddsRegister, HasWorked, IsSeatFor, KeepsSeat};

use crate::pieces::gate::Gate;
use crate::pieces::look::look_at;
use crate::pieces::piece::{Piece, piece_at};
use crate::pieces::tasks::Plan;
use history_model::RegId;
use job_board::{Board, Seat};
use reg_arena::Arena;
use reg_lamport::ReadList;
use std::alloc::{AllocError, Global};

/// What a worker hands back.
#[derive(Drop)]
pub struct Worked {
    /// The seat that it was given.
    pub seat: Seat,
    /// The pieces that it did, each with its number, in the order in which it drew them.
    pub done: Vec<(u64, Piece)>,
    /// Whether it ran out of memory: then the piece that it drew last isn't among those done.
    pub refused: bool,
}

/// Does the piece of this number, and adds it to those that are done. The list of reads that it needs is
/// kept.
fn do_piece(
    alloc: Global,
    arena: &Arena,
    plan: &Plan,
    number: u64,
    kept: &mut Option<ReadList>,
    done: &mut Vec<(u64, Piece)>,
) -> Result<(), AllocError>
    requires plan { IsSomePlan arena.now plan.now }
    requires number { number < length plan.now.tasks }
    requires kept { IfSome kept.old (IsReadList arena.now) }
    ensures ok { OnOk result (AddsPiece arena.now plan.now.tasks number done.old.items done.new.items) }
    ensures err { IsErr result → done.new.items ≡ done.old.items }
    ensures kept { IfSome kept.new (IsReadList arena.now) }
{
    let piece = piece_at(alloc, arena, plan, number, kept)?;
    done.push((number, piece))?;
    Ok(())
}

/// Looks for a lower register that isn't atomic, and does the piece of this one if there is
/// none; flags its number if it isn't atomic.
fn do_register(
    arena: &Arena,
    board: &Board<Global>,
    seat: &mut Seat,
    number: u64,
    done: &mut Vec<(u64, Piece)>,
) -> Result<(), AllocError>
    requires board { seat.old.board ≡ board.now.id }
    requires drawn { 0 < times number seat.old.view.drawn }
    requires number { (number < length arena.now.names) × (number ≤ MAX_JOBS) }
    ensures seat { KeepsSeat seat.old seat.new }
    ensures ok { OnOk result (AddsRegister arena.now number seat.old seat.new done.old.items done.new.items) }
    ensures err { IsErr result → (done.new.items ≡ done.old.items)
        × (seat.new.view.flagged ≡ seat.old.view.flagged) }
{
    let least = board.look(seat);
    let look = look_at(arena, RegId(number as u32), least);
    let faulty = look.is_faulty();
    done.push((number, look.into_piece()))?;
    if faulty {
        board.flag(seat, number);
    }
    Ok(())
}

/// One worker: it draws a piece, passes the gate with its number and does it, until no piece is left or
/// memory runs out. It keeps the last list of reads that it made: numbers are drawn in rising order, so it
/// lists the reads of a register once at most. It takes no right to start threads or to wait.
pub fn work<G: Gate>(
    alloc: Global,
    arena: &Arena,
    plan: &Plan,
    board: &Board<Global>,
    mut seat: Seat,
    gate: &G,
) -> Worked
    requires plan { IsSomePlan arena.now plan.now }
    requires seat { IsSeatFor plan.now.tasks board.now seat }
    ensures { HasWorked arena.now plan.now seat result }
{
    let mut done = Vec::new(alloc);
    // Address space only; if it is refused, each push asks for itself.
    let _room = done.reserve(plan.len() as usize);
    let mut kept = None;
    while let Some(number) = board.draw(&mut seat) {
        gate.arrive(number);
        let added = if plan.is_first() {
            do_register(arena, board, &mut seat, number, &mut done)
        } else {
            do_piece(alloc, arena, plan, number, &mut kept, &mut done)
        };
        if added.is_err() {
            return Worked {
                seat,
                done,
                refused: true,
            };
        }
    }
    Worked {
        seat,
        done,
        refused: false,
    }
}
