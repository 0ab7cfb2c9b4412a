//! The pieces of a history: how many there are, and that workers and threads of the callers' own do each
//! once.
ghost use Rattle.reg_report.specs.Pieces.Plan.{IsSomePlan};
ghost use Rattle.reg_report.specs.Pieces.Work.{IsSeatFor};

use crate::regcheck::expect::expect_eq;
use crate::regcheck::settings::{first_settings, settings};
use crate::regcheck::short::{arena_of, text_of};
use job_board::{Board, Seat};
use reg_arena::Arena;
use reg_report::{Gate, Judgement, OpenGate, Piece, Plan, Settings, Worked, check, plan, work};
use std::alloc::{AllocError, Global};
use std::process::Abort;
use std::random::RandomSource;
use std::sync::atomic::{AtomicU64, Ordering};
use std::test::Fail;
use std::thread::{Threads, join};

// In each of two registers a new value is read, then the old one; several processes write the second.
const TWO_REGISTERS: &str = "p1 W x 1; p1 ok; p1 W x 2; p2 R x; p2 = 2; p2 R x; p2 = 1; p1 ok; \
    p1 W y 1; p1 ok; p2 W y 2; p2 ok; p3 R y; p3 = 2; p3 R y; p3 = 1";

// Two registers that are atomic: memory is wanted for the order of each.
const TWO_ORDERS: &str = "p1 W x 1; p2 W y 1";

// How many pieces there are by these settings.
fn count(alloc: Global, arena: &Arena, by: Settings) -> Result<u64, AllocError> {
    Ok(plan(alloc, arena, by)?.len())
}

// How many reads go to a piece, and how many pieces there are of the two registers.
fn counts() -> &'static [(u32, u64)] {
    &[(1, 4), (2, 3), (4096, 3)]
}

// Each register has a piece, and with a single writer one for each cut of its reads; and one piece
// alone if only the first register that isn't atomic is asked for.
fn expect_counts(rt: &(impl AllocGlobal + Abort), arena: &Arena) -> Result<(), Fail> {
    for (cut, want) in counts() {
        let whole = count(rt.alloc(), arena, settings(1, *cut)?)?;
        expect_eq(rt, &whole, want, cut);
        let first = count(rt.alloc(), arena, first_settings(2, *cut)?)?;
        expect_eq(rt, &first, &2, cut);
    }
    Ok(())
}

#[test]
fn counts_of_pieces(rt: HostRuntime) -> Result<(), Fail> {
    let arena = arena_of(&rt, rt.alloc(), TWO_REGISTERS)?;
    expect_counts(&rt, &arena)
}

// What one worker does alone past a gate.
fn worked_alone(
    alloc: Global,
    arena: &Arena,
    by: Settings,
    gate: &impl Gate,
) -> Result<Worked, AllocError> {
    let plan = plan(alloc, arena, by)?;
    let (board, seat) = Board::open(alloc, plan.len())?;
    Ok(work(alloc, arena, &plan, &board, seat, gate))
}

// The first of two registers isn't atomic, and the second was skipped.
fn expect_second_skipped(rt: &impl Abort, done: &[(u64, Piece)]) {
    expect_eq(rt, &done.len(), &2, &"pieces");
    assert!(rt; matches!(done.first(), Some((0, Piece::Judged(Judgement::Faulty(_))))));
    assert!(rt; matches!(done.get(1), Some((1, Piece::Skipped))));
}

// One worker alone skips the second of the two registers.
fn expect_skips(rt: &(impl AllocGlobal + Abort), arena: &Arena) -> Result<(), Fail> {
    let worked = worked_alone(rt.alloc(), arena, first_settings(1, 1)?, &OpenGate)?;
    expect_second_skipped(rt, worked.done.as_slice());
    Ok(())
}

// A worker that found the first register not to be atomic skips the second, and makes no order.
#[test]
fn registers_above_a_fault_are_skipped(rt: HostRuntime) -> Result<(), Fail> {
    let arena = arena_of(&rt, rt.alloc(), TWO_REGISTERS)?;
    expect_skips(&rt, &arena)
}

// Counts how often the piece of one number arrives, or each piece if there is no such number.
#[derive(Drop)]
struct Counter {
    number: Option<u64>,
    arrived: AtomicU64,
}

impl Gate for Counter {
    fn arrive(&self, piece: u64) {
        if self.number.is_none_or(|number| number == piece) {
            self.arrived.fetch_add(1, Ordering::SeqCst);
        }
    }
}

impl Counter {
    fn of(number: Option<u64>) -> Self {
        Counter {
            number,
            arrived: AtomicU64::new(0),
        }
    }
}

// How often the piece of this number passes the gate, with this many workers.
fn passes(
    rt: &(impl Threads + RandomSource + AllocGlobal + Sync),
    text: &str,
    workers: u32,
    number: u64,
) -> Result<u64, Fail> {
    let by = settings(workers, 1)?;
    let gate = Counter::of(Some(number));
    check(rt, rt.alloc(), text.as_bytes(), by, &gate)?;
    Ok(gate.arrived.load(Ordering::SeqCst))
}

// With this many workers, each of the four pieces passes the gate once.
fn expect_once(
    rt: &(impl Threads + RandomSource + AllocGlobal + Abort + Sync),
    text: &str,
    workers: u32,
) -> Result<(), Fail> {
    for number in 0..4u64 {
        let passed = passes(rt, text, workers, number)?;
        expect_eq(rt, &passed, &1, &(workers, number));
    }
    Ok(())
}

// How many workers there are.
fn workers() -> &'static [u32] {
    &[1, 2, 3, 4, 16]
}

// So it is by each of these numbers of workers.
fn expect_once_by_all(
    rt: &(impl Threads + RandomSource + AllocGlobal + Abort + Sync),
    text: &str,
) -> Result<(), Fail> {
    for workers in workers() {
        expect_once(rt, text, *workers)?;
    }
    Ok(())
}

// However many workers there are, each piece passes the gate once.
#[test]
fn each_piece_passes_the_gate_once(rt: HostRuntime) -> Result<(), Fail> {
    let text = text_of(rt.alloc(), TWO_REGISTERS)?;
    expect_once_by_all(&rt, text.as_str())
}

// What two threads of the callers' own do, each with one of these seats.
fn worked_by_two<R: Threads + AllocGlobal + Sync>(
    rt: &R,
    arena: &Arena,
    plan: &Plan,
    board: &Board<Global>,
    seats: (Seat, Seat),
) -> (Worked, Worked)
    requires plan { IsSomePlan arena.now plan.now }
    requires first { IsSeatFor plan.now.tasks board.now seats.0 }
    requires second { IsSeatFor plan.now.tasks board.now seats.1 }
{
    let alloc = rt.alloc();
    let (one, other) = seats;
    join(
        rt,
        move || work(alloc, arena, plan, board, one, &OpenGate),
        move || work(alloc, arena, plan, board, other, &OpenGate),
    )
}

// The numbers of all that is done, sorted, or nothing if a worker ran out of memory.
fn numbers(alloc: Global, back: &(Worked, Worked)) -> Result<Option<Vec<u64>>, AllocError> {
    let mut numbers = Vec::new(alloc);
    for worked in [&back.0, &back.1] {
        if worked.refused {
            return Ok(None);
        }
        for (number, _) in &worked.done {
            numbers.push(*number)?;
        }
    }
    numbers.sort()?;
    Ok(Some(numbers))
}

// The same with seats of a new board, of which one has the weight 1.
fn done_by_two<R: Threads + AllocGlobal + Sync>(
    rt: &R,
    arena: &Arena,
) -> Result<(Worked, Worked), Fail> {
    let plan = plan(rt.alloc(), arena, settings(1, 1)?)?;
    let (board, seat) = Board::open(rt.alloc(), plan.len())?;
    let seats = board.split(seat, 1);
    Ok(worked_by_two(rt, arena, &plan, &board, seats))
}

// The numbers of what they do.
fn numbers_by_two<R: Threads + AllocGlobal + Sync>(
    rt: &R,
    arena: &Arena,
) -> Result<Option<Vec<u64>>, Fail> {
    let back = done_by_two(rt, arena)?;
    Ok(numbers(rt.alloc(), &back)?)
}

// They do each of the four pieces once.
fn expect_done_by_two<R: Threads + AllocGlobal + Abort + Sync>(
    rt: &R,
    arena: &Arena,
) -> Result<(), Fail> {
    let done = numbers_by_two(rt, arena)?.ok_or("memory was refused")?;
    expect_eq(rt, &done.as_slice(), &[0, 1, 2, 3].as_slice(), &"pieces");
    Ok(())
}

#[test]
fn callers_threads_do_each_piece_once(rt: HostRuntime) -> Result<(), Fail> {
    let arena = arena_of(&rt, rt.alloc(), TWO_REGISTERS)?;
    expect_done_by_two(&rt, &arena)
}

// How many pieces pass the gate of one worker alone, and how many it draws.
fn passed_and_drawn(alloc: Global, arena: &Arena) -> Result<(u64, u64), Fail> {
    let gate = Counter::of(None);
    let worked = worked_alone(alloc, arena, settings(1, 1)?, &gate)?;
    let drawn = (worked.done.len() as u64).saturating_add(u64::from(worked.refused));
    Ok((gate.arrived.load(Ordering::SeqCst), drawn))
}

// The two are as many.
fn expect_all_passed(rt: &(impl AllocGlobal + Abort), arena: &Arena) -> Result<(), Fail> {
    let (passed, drawn) = passed_and_drawn(rt.alloc(), arena)?;
    expect_eq(rt, &passed, &drawn, &"done before the gate");
    Ok(())
}

// A piece passes the gate before it is done, so one for which memory is refused has passed it too. It is
// tests/gate_comes_first that refuses memory to this test.
#[test]
fn each_drawn_piece_has_passed_the_gate(rt: HostRuntime) -> Result<(), Fail> {
    let arena = arena_of(&rt, rt.alloc(), TWO_ORDERS)?;
    expect_all_passed(&rt, &arena)
}
