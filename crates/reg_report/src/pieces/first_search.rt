//! The search for the first register that isn't atomic, by all workers at once.
ghost use Rattle.std.specs.Prelude.{◌≡◌, All, IfOk, length};
ghost use Rattle.job_board.specs.declared.limits.TheConstants.{FULL_WEIGHT};
ghost use Rattle.reg_report.specs.Pieces.Plan.{IsFirstPlan};
ghost use Rattle.reg_report.specs.Pieces.Workers.{IsFirstFound, IsFoundAt, IsHandedBack, weight_back};

use crate::pieces::gate::Gate;
use crate::pieces::settings::Settings;
use crate::pieces::tasks::Plan;
use crate::pieces::worker::Worked;
use crate::pieces::workers::{all_work, closed, joined, seats_of};
use history_model::RegId;
use job_board::Board;
use reg_arena::Arena;
use std::alloc::{AllocError, Global};
use std::thread::Threads;

/// The lowest number that the workers flagged, or the number of registers. Their
/// seats are joined, and the board is closed.
///
/// # Errors
/// Out of memory, if a worker was.
fn least_flagged(
    arena: &Arena,
    plan: &Plan,
    board: Board<Global>,
    mut back: Vec<Worked>,
) -> Result<u64, AllocError>
    requires plan { IsFirstPlan arena.now plan.now }
    requires jobs { board.jobs ≡ length plan.now.tasks }
    requires back { All (IsHandedBack arena.now plan.now board) back.items }
    requires weight { weight_back back.items ≡ FULL_WEIGHT }
    ensures { IfOk result (IsFoundAt arena.now (length plan.now.tasks)) }
{
    let mut refused = false;
    let mut whole = None;
    while let Some(worked) = back.pop() {
        refused = refused || worked.refused;
        whole = Some(joined(&board, whole, worked.seat));
    }
    let least = closed(board, whole);
    if refused { Err(AllocError) } else { Ok(least) }
}

/// Has as many workers as the settings say look for the first register that isn't atomic at once, past the
/// gate; nothing if each register is atomic. Neither the number of workers nor the gate changes the answer.
///
/// # Errors
/// Out of memory, here or in a worker.
pub fn first_faulty<R: Threads + Sync, G: Gate + Sync>(
    rt: &R,
    alloc: Global,
    arena: &Arena,
    plan: &Plan,
    settings: Settings,
    gate: &G,
) -> Result<Option<RegId>, AllocError>
    requires { IsFirstPlan arena.now plan.now }
    ensures { IfOk result (IsFirstFound arena.now) }
{
    let (board, seat) = Board::open(alloc, plan.len())?;
    let seats = seats_of(alloc, plan, &board, seat, settings.workers())?;
    let back = all_work(rt, alloc, arena, plan, &board, seats, gate)?;
    let least = least_flagged(arena, plan, board, back)?;
    if least < plan.len() {
        Ok(Some(RegId(least as u32)))
    } else {
        Ok(None)
    }
}
