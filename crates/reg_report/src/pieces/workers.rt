//! All workers at once.
ghost use Rattle.std.specs.Prelude.{◌≡◌, ◌≤◌, All, IfOk, IfSome, length};
ghost use Rattle.job_board.specs.declared.limits.TheConstants.{FULL_WEIGHT};
ghost use Rattle.reg_report.specs.Pieces.Plan.{IsPlan, IsSomePlan};
ghost use Rattle.reg_report.specs.Pieces.Slots.{AreDone};
ghost use Rattle.reg_report.specs.Pieces.Work.{HasWorked};
ghost use Rattle.reg_report.specs.Pieces.Workers.{ClosesWhole, IsHandedBack, IsNewSeat, view_with};
ghost use Rattle.reg_report.specs.Pieces.Workers.{weight_back, weight_of_all, weight_so_far};

use crate::pieces::gate::Gate;
use crate::pieces::kept::Pieces;
use crate::pieces::settings::Settings;
use crate::pieces::tasks::Plan;
use crate::pieces::worker::{Worked, work};
use job_board::{Board, Seat};
use parallel::map_jobs;
use reg_arena::Arena;
use std::alloc::{AllocError, Global};
use std::thread::Threads;

/// As many seats of a board, made of one that has drawn nothing: all of weight 1 but the last.
pub(crate) fn seats_of(
    alloc: Global,
    plan: &Plan,
    board: &Board<Global>,
    seat: Seat,
    count: u32,
) -> Result<Vec<Seat>, AllocError>
    requires seat { IsNewSeat plan.now.tasks board.now seat }
    requires count { (1 ≤ count) × (count ≤ seat.view.weight) }
    ensures seats { IfOk result (λ seats. All (IsNewSeat plan.now.tasks board.now) seats.items) }
    ensures weight { IfOk result (λ seats. weight_of_all seats.items ≡ seat.view.weight) }
    ensures count { IfOk result (λ seats. length seats.items ≡ count) }
{
    let mut rest = seat;
    let mut seats = Vec::with_capacity(alloc, count as usize)?;
    for _ in 1..count {
        let (one, more) = board.split(rest, 1);
        seats.push(one)?;
        rest = more;
    }
    seats.push(rest)?;
    Ok(seats)
}

/// A worker for each seat, all of them at once.
pub(crate) fn all_work<R: Threads + Sync, G: Gate + Sync>(
    rt: &R,
    alloc: Global,
    arena: &Arena,
    plan: &Plan,
    board: &Board<Global>,
    seats: Vec<Seat>,
    gate: &G,
) -> Result<Vec<Worked>, AllocError>
    requires plan { IsSomePlan arena.now plan.now }
    requires seats { All (IsNewSeat plan.now.tasks board.now) seats.items }
    ensures back { IfOk result (λ back. All (IsHandedBack arena.now plan.now board.now) back.items) }
    ensures weight { IfOk result (λ back. weight_back back.items ≡ weight_of_all seats.items) }
{
    map_jobs(
        rt,
        seats,
        &|seat| -> Worked
            requires plan { IsSomePlan arena.now plan.now }
            requires seat { IsNewSeat plan.now.tasks board.now seat }
            ensures { HasWorked arena.entry.now plan.entry.now seat result }
        { work(alloc, arena, plan, board, seat, gate) },
    )
}

/// One seat more, made one with those before it.
pub(crate) fn joined(board: &Board<Global>, before: Option<Seat>, seat: Seat) -> Seat
    requires seat { seat.board ≡ board.now.id }
    requires before { IfSome before (λ one. one.board ≡ board.now.id) }
    ensures board { result.board ≡ board.now.id }
    ensures view { result.view ≡ view_with before seat }
{
    match before {
        Some(one) => board.join(one, seat),
        None => seat,
    }
}

/// Closes the board with the one seat that all of its seats were made into; the lowest number
/// that was flagged, or the number of pieces.
pub(crate) fn closed(board: Board<Global>, whole: Option<Seat>) -> u64
    requires board { IfSome whole (λ seat. seat.board ≡ board.id) }
    requires weight { weight_so_far whole ≡ FULL_WEIGHT }
    ensures { ClosesWhole board.jobs whole result }
{
    if let Some(seat) = whole {
        if let Ok(least) = board.close(seat) {
            return least;
        }
    }
    unreachable!()
}

/// What all workers did, put into the slots of its numbers. Their seats are joined, and the board is closed.
///
/// # Errors
/// Out of memory, if a worker was.
fn gathered(
    arena: &Arena,
    plan: &Plan,
    board: Board<Global>,
    mut pieces: Pieces,
    mut back: Vec<Worked>,
) -> Result<Pieces, AllocError>
    requires jobs { board.jobs ≡ length plan.now.tasks }
    requires judgements { length pieces.judgements ≡ length plan.now.tasks }
    requires reads { length pieces.reads ≡ length plan.now.tasks }
    requires back { All (IsHandedBack arena.now plan.now board) back.items }
    requires weight { weight_back back.items ≡ FULL_WEIGHT }
    ensures { IfOk result (AreDone arena.now plan.now.tasks) }
{
    let mut refused = false;
    let mut whole = None;
    while let Some(worked) = back.pop() {
        pieces.put_all(worked.done);
        refused = refused || worked.refused;
        whole = Some(joined(&board, whole, worked.seat));
    }
    closed(board, whole);
    if refused { Err(AllocError) } else { Ok(pieces) }
}

/// Has as many workers as the settings say do all pieces of a plan at once, past the gate.
///
/// # Errors
/// Out of memory, here or in a worker; what was done is dropped.
pub fn do_pieces<R: Threads + Sync, G: Gate + Sync>(
    rt: &R,
    alloc: Global,
    arena: &Arena,
    plan: &Plan,
    settings: Settings,
    gate: &G,
) -> Result<Pieces, AllocError>
    requires { IsPlan arena.now settings.cut plan.now }
    ensures { IfOk result (AreDone arena.now plan.now.tasks) }
{
    let pieces = Pieces::empty(alloc, plan.len())?;
    let (board, seat) = Board::open(alloc, plan.len())?;
    let seats = seats_of(alloc, plan, &board, seat, settings.workers())?;
    let back = all_work(rt, alloc, arena, plan, &board, seats, gate)?;
    gathered(arena, plan, board, pieces, back)
}
