//! Tests of what no clause says: that looks find flags, and boards under threads of the callers' own.
ghost use Rattle.std.specs.Prelude.{◌≡◌, ◌≤◌, ◌<◌, All, IfOk, IfSome};

use super::*;
use std::alloc::{AllocError, Global};
use std::sync::Wait;
use std::test::Fail;
use std::thread;
use std::thread::{Promise, PromisedHandle, Threads};

// A thread hands back a seat of this board.
#[derive(Clone, Copy)]
struct Back<'a>(&'a Board<Global>);

impl<'a> Promise<Result<(Seat, Vec<u64>), AllocError>> for Back<'a> {
    ghost kept_by = { λ p r. IfOk r (λ x. x.0.board ≡ p.0.now.id) };
}

// Draws until no number is left, and flags each number that leaves 3 when divided by 7.
fn drained(
    alloc: Global,
    board: &Board<Global>,
    mut seat: Seat,
) -> Result<(Seat, Vec<u64>), AllocError>
    requires { seat.board ≡ board.now.id }
    ensures { IfOk result (λ r. r.0.board ≡ board.now.id) }
{
    let mut drawn = Vec::new(alloc);
    while let Some(job) = board.draw(&mut seat) {
        if job % 7 == 3 {
            board.flag(&mut seat, job);
        }
        drawn.push(job)?;
    }
    Ok((seat, drawn))
}

// One seat as `count` seats, all of weight 1 but the last.
fn seats_of(
    alloc: Global,
    board: &Board<Global>,
    seat: Seat,
    count: u64,
) -> Result<Vec<Seat>, AllocError>
    requires { (seat.board ≡ board.now.id) × (0 < count) × (count ≤ seat.view.weight) }
    ensures { IfOk result (λ v. All (λ s. s.board ≡ board.now.id) v.items) }
{
    let mut rest = seat;
    let mut seats = Vec::new(alloc);
    for i in 1..count {
        let (one, more) = board.split(rest, 1);
        seats.push(one)?;
        rest = more;
    }
    seats.push(rest)?;
    Ok(seats)
}

// Each seat in a thread of its own.
fn all_drained<R: Threads + Wait + Sync>(
    rt: &R,
    alloc: Global,
    board: &Board<Global>,
    seats: Vec<Seat>,
) -> Result<Vec<(Seat, Vec<u64>)>, AllocError>
    requires { All (λ s. s.board ≡ board.now.id) seats.items }
    ensures { IfOk result (λ v. All (λ r. r.0.board ≡ board.now.id) v.items) }
{
    thread::scope(
        thread::scope_env(),
        rt,
        |scope| -> Result<Vec<(Seat, Vec<u64>)>, AllocError>
            requires { All (λ s. s.board ≡ board.now.id) seats.items }
            ensures { IfOk result (λ v. All (λ r. r.0.board ≡ board.entry.now.id) v.items) }
        {
            let mut seats = seats;
            let mut handles = Vec::new(alloc);
            while let Some(seat) = seats.pop() {
                let started = scope.spawn_with(
                    Back(board),
                    move || -> Result<(Seat, Vec<u64>), AllocError>
                        requires { seat.board ≡ board.now.id }
                        ensures { IfOk result (λ r. r.0.board ≡ board.entry.now.id) }
                    { drained(alloc, board, seat) },
                )?;
                handles.push(started)?;
            }
            ended(rt, alloc, board, handles)
        },
    )
}

fn ended<'a, R: Threads>(
    rt: &R,
    alloc: Global,
    board: &'a Board<Global>,
    mut handles: Vec<PromisedHandle<Result<(Seat, Vec<u64>), AllocError>, Back<'a>>>,
) -> Result<Vec<(Seat, Vec<u64>)>, AllocError>
    requires { All (λ h. h.promise.0.now.id ≡ board.now.id) handles.items }
    ensures { IfOk result (λ v. All (λ r. r.0.board ≡ board.now.id) v.items) }
{
    let mut back = Vec::new(alloc);
    while let Some(handle) = handles.pop() {
        back.push(handle.join(rt)?)?;
    }
    Ok(back)
}

// The seats as one, and all numbers that they drew, sorted.
fn gathered(
    alloc: Global,
    board: &Board<Global>,
    mut back: Vec<(Seat, Vec<u64>)>,
) -> Result<Option<(Seat, Vec<u64>)>, AllocError>
    requires { All (λ r. r.0.board ≡ board.now.id) back.items }
    ensures { IfOk result (λ x. IfSome x (λ r. r.0.board ≡ board.now.id)) }
{
    let Some((mut whole, mut all)) = back.pop() else {
        return Ok(None);
    };
    while let Some((seat, drawn)) = back.pop() {
        all.extend_from_slice(&drawn)?;
        whole = board.join(whole, seat);
    }
    all.sort()?;
    Ok(Some((whole, all)))
}

// What threads with a seat each draw, sorted, and what the board then closes with.
fn round<R: Threads + Wait + Sync>(
    rt: &R,
    alloc: Global,
    seats: u64,
    jobs: u64,
) -> Result<Option<(Vec<u64>, u64)>, AllocError>
    requires seats { (0 < seats) × (seats ≤ 16) }
    requires jobs { jobs ≤ 40 }
{
    let (board, seat) = Board::open(alloc, jobs)?;
    let seats = seats_of(alloc, &board, seat, seats)?;
    let back = all_drained(rt, alloc, &board, seats)?;
    let Some((mut whole, all)) = gathered(alloc, &board, back)? else {
        return Ok(None);
    };
    if board.draw(&mut whole).is_some() {
        return Ok(None);
    }
    Ok(board.close(whole).ok().map(|least| (all, least)))
}

// Whether sorted numbers are those below a count, each once.
fn are_all_once(sorted: &[u64], count: u64) -> bool {
    for i in 0..sorted.len() {
        if sorted[i] != i as u64 {
            return false;
        }
    }
    sorted.len() as u64 == count
}

// Of the numbers 0 to 40, those that leave 3 when divided by 7 begin with 3.
#[test]
fn threads_draw_each_number_once(rt: HostRuntime) -> Result<(), Fail> {
    for seats in 1..17u64 {
        for jobs in 0..41u64 {
            let Some((all, least)) = round(&rt, rt.alloc(), seats, jobs)? else {
                panic!(rt; "{seats} seats, {jobs} jobs: not closed")
            };
            assert_eq!(rt; least, if jobs > 3 { 3 } else { jobs }, "{seats} seats");
            assert!(rt; are_all_once(&all, jobs), "{seats} seats, {jobs} jobs");
        }
    }
    Ok(())
}

// No clause says that a look finds what a seat that the looking one hasn't met flagged.
#[test]
fn a_look_finds_what_another_seat_flagged(rt: HostRuntime) -> Result<(), Fail> {
    let (board, seat) = Board::open(rt.alloc(), 4)?;
    let (mut one, mut other) = board.split(seat, 8);
    let Some(job) = board.draw(&mut one) else {
        panic!(rt; "a new board has a number left")
    };
    assert_eq!(rt; job, 0);
    assert_eq!(rt; board.look(&mut other), 4);
    board.flag(&mut one, job);
    assert_eq!(rt; board.look(&mut other), 0);
    Ok(())
}

// Of the numbers below 4 one is flagged, 3.
#[test]
fn an_exhausted_seat_draws_no_more(rt: HostRuntime) -> Result<(), Fail> {
    for (jobs, wanted) in [(0, 0), (1, 1), (3, 3), (4, 3), (40, 3)] {
        let (board, seat) = Board::open(rt.alloc(), jobs)?;
        let (mut seat, drawn) = drained(rt.alloc(), &board, seat)?;
        assert_eq!(rt; drawn.len() as u64, jobs);
        assert_eq!(rt; board.draw(&mut seat), None, "{jobs} jobs");
        assert!(rt;
            matches!(board.close(seat), Ok(least) if least == wanted),
            "{jobs} jobs"
        );
    }
    Ok(())
}

#[test]
fn a_seat_left_out_keeps_a_board_open(rt: HostRuntime) -> Result<(), Fail> {
    for part in 1..16u64 {
        let (board, seat) = Board::open(rt.alloc(), 4)?;
        let (one, other) = board.split(seat, part);
        assert_eq!(rt; (one.weight(), other.weight()), (part, 16 - part));
        let Err(SeatsOut { board, seat }) = board.close(one) else {
            panic!(rt; "closed with a seat of {part}")
        };
        assert_eq!(rt; seat.weight(), part);
        let whole = board.join(seat, other);
        assert!(rt; matches!(board.close(whole), Ok(4)), "{part}");
    }
    Ok(())
}

#[test]
fn a_dropped_seat_is_out_for_good(rt: HostRuntime) -> Result<(), Fail> {
    let (board, seat) = Board::open(rt.alloc(), 4)?;
    let (one, other) = board.split(seat, 8);
    drop(other);
    let mut left = SeatsOut { board, seat: one };
    for _ in 0..3 {
        let SeatsOut { board, seat } = left;
        left = match board.close(seat) {
            Err(out) => out,
            Ok(_) => panic!(rt; "closed without a dropped seat"),
        };
    }
    drop(left.board);
    Ok(())
}
