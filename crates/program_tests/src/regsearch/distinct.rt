//! Registers whose written values are distinct: each is decided, whatever the bounds are. With one step the
//! search gives up, so zones answer here.
use crate::regsearch::registers::{ONE, THREE, TWO, cas, operation, read, text_of, write};
use history_model::{Act, Operation};
use history_text::Val;
use register_search::distinct_values::decide;
use register_search::{Bounds, Verdict, timeline};
use std::alloc::{AllocError, Global};
use std::process::Abort;
use std::test::Fail;

const FOUR: Val = Val::Int(4);

const ONE_STEP: Bounds = Bounds {
    steps: 1,
    configurations: 1,
};

fn pending_read(call: u32) -> Operation {
    operation(call, None, Act::Read(None))
}

/// What is said of a register if the search may take one step.
pub(crate) fn verdict(alloc: Global, ops: &[Operation]) -> Result<Verdict, AllocError> {
    let events = timeline(alloc, ops)?;
    decide(alloc, ops, &events, ONE_STEP)
}

fn answer(alloc: Global, ops: &[Operation]) -> Result<String, AllocError> {
    text_of(alloc, verdict(alloc, ops)?)
}

/// A register with its name.
type Row<'a> = (&'static str, &'a [Operation]);

fn expect(rt: &(impl AllocGlobal + Abort), rows: &[Row], expected: &str) -> Result<(), Fail> {
    for (name, ops) in rows {
        let found = answer(rt.alloc(), ops)?;
        assert_eq!(rt; found.as_str(), expected, "{name}");
    }
    Ok(())
}

#[test]
fn right_ones(rt: HostRuntime) -> Result<(), Fail> {
    let rows: [Row; 4] = [
        (
            "a read during the write of its value",
            &[write(2, Some(5), ONE), read(3, 4, ONE)],
        ),
        (
            "a read of null during a write",
            &[write(2, Some(5), ONE), read(3, 4, Val::Null)],
        ),
        (
            "writes that overlap, in the order in which they were read",
            &[
                write(2, Some(10), ONE),
                write(3, Some(11), TWO),
                read(4, 5, TWO),
                read(6, 7, ONE),
                read(8, 9, ONE),
            ],
        ),
        (
            "a backward zone beside a forward one",
            &[
                write(2, Some(3), ONE),
                read(4, 6, ONE),
                write(5, Some(7), TWO),
            ],
        ),
    ];
    expect(&rt, &rows, "yes")
}

#[test]
fn right_ones_with_pending_calls(rt: HostRuntime) -> Result<(), Fail> {
    let rows: [Row; 2] = [
        (
            "a pending write that was read",
            &[write(2, None, ONE), read(3, 4, Val::Null), read(5, 6, ONE)],
        ),
        (
            "a pending write and a pending read that nobody needs",
            &[
                write(2, Some(3), ONE),
                write(4, None, TWO),
                pending_read(5),
                read(6, 7, ONE),
            ],
        ),
    ];
    expect(&rt, &rows, "yes")
}

/// A register that isn't atomic, with the place of the first hopeless reply,
/// and the one order that is legal before it.
type Faulty<'a> = (&'static str, &'a [Operation], u32, &'a [u32]);

fn expect_no(rt: &(impl AllocGlobal + Abort), rows: &[Faulty]) -> Result<(), Fail> {
    for (name, ops, reply, before) in rows {
        let found = match verdict(rt.alloc(), ops)? {
            Verdict::No { reply, before } => Some((reply, before)),
            _ => None,
        };
        let (at, order) = found.ok_or(*name)?;
        assert_eq!(rt; at, *reply, "{name}");
        let order = order.ok_or(*name)?;
        assert_eq!(rt; order.as_slice(), *before, "{name}");
    }
    Ok(())
}

#[test]
fn values_not_written_yet(rt: HostRuntime) -> Result<(), Fail> {
    let rows: [Faulty; 2] = [
        (
            "a value that nobody writes",
            &[write(2, Some(3), ONE), read(4, 5, TWO)],
            1,
            &[0],
        ),
        (
            "a read that replies before its write is called",
            &[read(2, 3, ONE), write(4, Some(5), ONE)],
            0,
            &[],
        ),
    ];
    expect_no(&rt, &rows)
}

#[test]
fn values_that_are_over(rt: HostRuntime) -> Result<(), Fail> {
    let rows: [Faulty; 4] = [
        (
            "a read of null after a write",
            &[write(2, Some(3), ONE), read(4, 5, Val::Null)],
            1,
            &[0],
        ),
        (
            "a read of null after another read",
            &[write(2, None, ONE), read(3, 4, ONE), read(5, 6, Val::Null)],
            2,
            &[0, 1],
        ),
        (
            "a stale read: its zone has the later write within it",
            &[
                write(2, Some(3), ONE),
                write(4, Some(5), TWO),
                read(6, 7, ONE),
            ],
            2,
            &[0, 1],
        ),
        (
            "a stale read behind a pending write that was read",
            &[
                write(2, Some(3), ONE),
                write(4, None, TWO),
                read(5, 6, TWO),
                read(7, 8, ONE),
            ],
            3,
            &[0, 1, 2],
        ),
    ];
    expect_no(&rt, &rows)
}

#[test]
fn zones_that_conflict(rt: HostRuntime) -> Result<(), Fail> {
    let rows: [Faulty; 2] = [
        (
            "two forward zones that overlap",
            &[
                write(2, None, ONE),
                write(3, Some(5), TWO),
                read(4, 6, ONE),
                read(7, 8, TWO),
                read(9, 10, ONE),
            ],
            4,
            &[0, 2, 1, 3],
        ),
        (
            "two faults: zones that conflict begin earlier, and the reply that shows it comes later",
            &[
                write(2, Some(3), ONE),
                write(4, Some(5), TWO),
                read(6, 13, ONE),
                write(7, Some(8), THREE),
                write(9, Some(10), FOUR),
                read(11, 12, THREE),
            ],
            5,
            &[0, 1, 3, 4],
        ),
    ];
    expect_no(&rt, &rows)
}

#[test]
fn others_keep_their_bounds(rt: HostRuntime) -> Result<(), Fail> {
    let rows: [Row; 3] = [
        (
            "a value written twice",
            &[
                write(2, Some(3), ONE),
                write(4, Some(5), TWO),
                write(6, Some(7), ONE),
                read(8, 9, ONE),
            ],
        ),
        ("a cas", &[write(2, Some(3), ONE), cas(4, Some(5), ONE, 2)]),
        (
            "a write of null",
            &[write(2, Some(3), ONE), write(4, Some(5), Val::Null)],
        ),
    ];
    expect(&rt, &rows, "steps")
}
