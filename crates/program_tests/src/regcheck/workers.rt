//! Runs by several workers: by all settings, and past gates that hold pieces back.
use crate::regcheck::answer::{Answer, answered_by};
use crate::regcheck::rows::{FIRST_BY_APPEARANCE, Report, SECOND_OF_THREE, TWO_FAULTY, TWO_WRITES};
use crate::regcheck::settings::{first_settings, settings};
use reg_report::{Gate, Outcome, Settings};
use std::alloc::{AllocError, Global};
use std::process::Abort;
use std::random::RandomSource;
use std::sync::atomic::{AtomicBool, AtomicU64, Ordering};
use std::test::Fail;
use std::thread::{Threads, yield_now};

// How often a gate looks whether it may let a piece go, before it gives up: for minutes, since it lets
// other threads run after each look. No answer depends on how soon they do.
const MOST_TURNS: u32 = 200_000_000;

// How often a gate looks while it holds the first piece.
const HELD_TURNS: u32 = 10_000;

// Whether the word came to hold as much, within the turns that a gate looks.
fn comes_to(word: &AtomicU64, least: u64) -> bool {
    for _ in 0..MOST_TURNS {
        if word.load(Ordering::SeqCst) >= least {
            return true;
        }
        yield_now();
    }
    false
}

// Holds one piece until all the others have arrived.
#[derive(Drop)]
struct HoldsOne {
    held: u64,
    others: u64,
    arrived: AtomicU64,
    gave_up: AtomicBool,
}

impl Gate for HoldsOne {
    fn arrive(&self, piece: u64) {
        if piece != self.held {
            self.arrived.fetch_add(1, Ordering::SeqCst);
        } else if !comes_to(&self.arrived, self.others) {
            self.gave_up.store(true, Ordering::SeqCst);
        }
    }
}

// What is answered while this piece is held, and whether its gate gave up.
fn answered_past(
    rt: &(impl Threads + RandomSource + AllocGlobal + Sync),
    input: &str,
    pieces: u64,
    held: u64,
    by: Settings,
) -> Result<(Answer, bool), AllocError> {
    let gate = HoldsOne {
        held,
        others: pieces.saturating_sub(1),
        arrived: AtomicU64::new(0),
        gave_up: AtomicBool::new(false),
    };
    let answer = answered_by(rt, input.as_bytes(), by, &gate)?;
    Ok((answer, gate.gave_up.load(Ordering::SeqCst)))
}

// The workers of these settings do all other pieces of a history while this one is held.
fn expect_past(
    rt: &(impl Threads + RandomSource + AllocGlobal + Abort + Sync),
    row: &Report,
    pieces: u64,
    held: u64,
    by: Settings,
) -> Result<(), Fail> {
    let (_, input, want, outcome) = *row;
    let ((report, told), gave_up) = answered_past(rt, input, pieces, held, by)?;
    assert!(rt; !gave_up, "{held} of {pieces}");
    assert_eq!(rt; report.as_slice(), want.as_bytes(), "{held} of {pieces}");
    assert_eq!(rt; told, Ok(outcome), "{held} of {pieces}");
    Ok(())
}

// So they do while any one of them is held.
fn expect_past_each(
    rt: &(impl Threads + RandomSource + AllocGlobal + Abort + Sync),
    row: &Report,
    pieces: u64,
    by: Settings,
) -> Result<(), Fail> {
    for held in 0..pieces {
        expect_past(rt, row, pieces, held, by)?;
    }
    Ok(())
}

// Workers run at once, and none has a share that was fixed before.
#[test]
fn a_held_piece_holds_no_other(rt: HostRuntime) -> Result<(), Fail> {
    expect_past_each(&rt, &TWO_WRITES, 2, settings(2, 1)?)?;
    expect_past_each(&rt, &TWO_FAULTY, 4, settings(2, 1)?)
}

// A register that is held back changes no byte, though the others are done and flagged before it.
#[test]
fn a_held_register_holds_no_other(rt: HostRuntime) -> Result<(), Fail> {
    expect_past_each(&rt, &SECOND_OF_THREE, 3, first_settings(2, 1)?)?;
    expect_past_each(&rt, &FIRST_BY_APPEARANCE, 3, first_settings(2, 1)?)
}

// Holds the first piece for a while, and each other until the first is let go.
#[derive(Drop)]
struct HoldsAll {
    arrived: AtomicU64,
    // How many had arrived when the first was let go, and 0 before.
    let_go: AtomicU64,
    gave_up: AtomicBool,
}

impl Gate for HoldsAll {
    fn arrive(&self, piece: u64) {
        let mut arrived = self.arrived.fetch_add(1, Ordering::SeqCst);
        if piece != 0 {
            if !comes_to(&self.let_go, 1) {
                self.gave_up.store(true, Ordering::SeqCst);
            }
            return;
        }
        for _ in 0..HELD_TURNS {
            arrived = self.arrived.load(Ordering::SeqCst);
            yield_now();
        }
        self.let_go.store(arrived, Ordering::SeqCst);
    }
}

// No more pieces of this history are at work at once than there are workers.
fn expect_no_more(
    rt: &(impl Threads + RandomSource + AllocGlobal + Abort + Sync),
    input: &str,
    workers: u32,
    outcome: Outcome,
) -> Result<(), Fail> {
    let gate = HoldsAll {
        arrived: AtomicU64::new(0),
        let_go: AtomicU64::new(0),
        gave_up: AtomicBool::new(false),
    };
    let (_, told) = answered_by(rt, input.as_bytes(), settings(workers, 1)?, &gate)?;
    let at_once = gate.let_go.load(Ordering::SeqCst);
    assert!(rt; !gate.gave_up.load(Ordering::SeqCst), "{workers}");
    assert!(rt;
        0 < at_once && at_once <= u64::from(workers),
        "{workers}: {at_once}"
    );
    assert_eq!(rt; told, Ok(outcome), "{workers}");
    Ok(())
}

// A worker draws a piece once it has done the one before: there is no thread for each piece.
#[test]
fn no_more_pieces_at_once_than_workers(rt: HostRuntime) -> Result<(), Fail> {
    let input = reads_of_a_write(rt.alloc(), 15)?;
    for workers in 1..=15u32 {
        expect_no_more(&rt, input.as_str(), workers, Outcome::Atomic)?;
    }
    for workers in 1..=2u32 {
        expect_no_more(&rt, TWO_FAULTY.1, workers, Outcome::NotAtomic)?;
    }
    Ok(())
}

// Holds each piece until as many have arrived as there are workers.
#[derive(Drop)]
struct HoldsEach {
    workers: u64,
    arrived: AtomicU64,
    gave_up: AtomicBool,
}

impl Gate for HoldsEach {
    fn arrive(&self, _piece: u64) {
        self.arrived.fetch_add(1, Ordering::SeqCst);
        if !comes_to(&self.arrived, self.workers) {
            self.gave_up.store(true, Ordering::SeqCst);
        }
    }
}

// A write and this many reads of it, one after another: in cuts of one
// read, a piece for each read and one more.
fn reads_of_a_write(alloc: Global, count: u32) -> Result<String, AllocError> {
    let mut input = String::from_str(
        alloc,
        r#"{"process":1,"event":"call","op":"write","register":"x","value":1}
{"process":1,"event":"reply"}
"#,
    )?;
    for _ in 0..count {
        input.push_str(
            r#"{"process":2,"event":"call","op":"read","register":"x"}
{"process":2,"event":"reply","value":1}
"#,
        )?;
    }
    Ok(input)
}

// This many workers are at work at once over a history of this many reads.
fn expect_at_once(
    rt: &(impl Threads + RandomSource + AllocGlobal + Abort + Sync),
    workers: u32,
    reads: u32,
) -> Result<(), Fail> {
    let input = reads_of_a_write(rt.alloc(), reads)?;
    let gate = HoldsEach {
        workers: u64::from(workers),
        arrived: AtomicU64::new(0),
        gave_up: AtomicBool::new(false),
    };
    let (_, told) = answered_by(rt, input.as_bytes(), settings(workers, 1)?, &gate)?;
    assert!(rt; !gate.gave_up.load(Ordering::SeqCst), "{workers}, {reads}");
    assert_eq!(rt; told, Ok(Outcome::Atomic), "{workers}, {reads}");
    Ok(())
}

// As many workers as are asked for are at work at once, as long as there are pieces for them.
#[test]
fn as_many_at_once_as_workers(rt: HostRuntime) -> Result<(), Fail> {
    for workers in 1..=16u32 {
        expect_at_once(&rt, workers, 15)?;
    }
    Ok(())
}

// So they are when there are many pieces.
#[test]
fn many_pieces_at_once(rt: HostRuntime) -> Result<(), Fail> {
    for (workers, reads) in [(2, 80), (16, 300)] {
        expect_at_once(&rt, workers, reads)?;
    }
    Ok(())
}
