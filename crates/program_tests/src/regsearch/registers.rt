//! Which registers with a cas are atomic: small ones, by the times of their calls and replies.
use history_model::{Act, Operation};
use history_text::Val;
use register_search::{Bound, Bounds, Moment, Verdict, decide, first_unwritten, timeline};
use std::alloc::{AllocError, Global};
use std::process::Abort;
use std::test::Fail;

pub(crate) const ONE: Val = Val::Int(1);

pub(crate) const TWO: Val = Val::Int(2);

pub(crate) const THREE: Val = Val::Int(3);

/// The time of a missing reply.
pub(crate) const AFTER_ALL: u32 = u32::MAX;

pub(crate) fn write(call: u32, reply: Option<u32>, value: Val) -> Operation {
    operation(call, reply, Act::Write(value))
}

pub(crate) fn read(call: u32, reply: u32, value: Val) -> Operation {
    operation(call, Some(reply), Act::Read(Some(value)))
}

pub(crate) fn cas(call: u32, reply: Option<u32>, from: Val, to: i64) -> Operation {
    let to = Val::Int(to);
    operation(call, reply, Act::Cas { from, to })
}

pub(crate) fn miss(call: u32, reply: u32, from: Val) -> Operation {
    operation(call, Some(reply), Act::Miss { from })
}

pub(crate) fn operation(call: u32, reply: Option<u32>, act: Act) -> Operation {
    Operation {
        line: call,
        call,
        reply: reply.unwrap_or(AFTER_ALL),
        completed: reply.is_some(),
        process: Some(1),
        register: 0,
        act,
    }
}

/// What the search says of a register.
pub(crate) fn verdict(
    alloc: Global,
    ops: &[Operation],
    bounds: Bounds,
) -> Result<Verdict, AllocError> {
    let events = timeline(alloc, ops)?;
    decide(alloc, ops, &events, bounds)
}

/// `yes` if the search finds an order, `no` with the place of the operation whose
/// reply is hopeless, or the bound that it met.
fn answer(alloc: Global, ops: &[Operation], bounds: Bounds) -> Result<String, AllocError> {
    text_of(alloc, verdict(alloc, ops, bounds)?)
}

/// A verdict in words.
pub(crate) fn text_of(alloc: Global, verdict: Verdict) -> Result<String, AllocError> {
    match verdict {
        Verdict::Yes { .. } => String::from_str(alloc, "yes"),
        Verdict::No { reply, .. } => format!(in alloc; "no at {reply}"),
        Verdict::Unknown(Bound::Steps) => String::from_str(alloc, "steps"),
        Verdict::Unknown(Bound::Configurations) => String::from_str(alloc, "configurations"),
    }
}

#[test]
fn moments(rt: HostRuntime) -> Result<(), Fail> {
    let ops = [
        write(2, Some(7), ONE),
        write(3, None, TWO),
        read(4, 5, TWO),
        read(6, 8, ONE),
    ];
    let expected = [
        Moment::Call(0),
        Moment::Call(1),
        Moment::Call(2),
        Moment::Reply(2),
        Moment::Call(3),
        Moment::Reply(0),
        Moment::Reply(3),
    ];
    let found = timeline(rt.alloc(), &ops)?;
    assert_eq!(rt; found.as_slice(), expected.as_slice());
    Ok(())
}

/// A register, and what the search says of it.
type Row<'a> = (&'static str, &'a [Operation], &'static str);

fn expect(rt: &(impl AllocGlobal + Abort), rows: &[Row]) -> Result<(), Fail> {
    for (name, ops, expected) in rows {
        let found = answer(rt.alloc(), ops, Bounds::DEFAULT)?;
        assert_eq!(rt; found.as_str(), *expected, "{name}");
    }
    Ok(())
}

#[test]
fn writes_of_one_value(rt: HostRuntime) -> Result<(), Fail> {
    let rows: [Row; 4] = [
        (
            "the same value twice, the second time pending",
            &[write(2, Some(3), ONE), write(4, None, ONE)],
            "yes",
        ),
        (
            "a value that is over, written between two equal ones",
            &[
                write(2, Some(3), ONE),
                write(4, Some(5), TWO),
                write(6, Some(7), ONE),
                read(8, 9, TWO),
            ],
            "no at 3",
        ),
        (
            "two writes of one value that overlap a read of null",
            &[
                write(2, Some(6), ONE),
                write(3, Some(7), ONE),
                read(4, 5, Val::Null),
            ],
            "yes",
        ),
        (
            "the same, and a read of null after both",
            &[
                write(2, Some(6), ONE),
                write(3, Some(7), ONE),
                read(4, 5, Val::Null),
                read(8, 9, Val::Null),
            ],
            "no at 3",
        ),
    ];
    expect(&rt, &rows)
}

#[test]
fn values_that_nobody_wrote(rt: HostRuntime) -> Result<(), Fail> {
    let rows: [Row; 1] = [(
        "two reads of what nobody wrote: the first one is named",
        &[read(2, 4, ONE), read(3, 5, TWO)],
        "no at 0",
    )];
    expect(&rt, &rows)
}

#[test]
fn cas_that_reply(rt: HostRuntime) -> Result<(), Fail> {
    let rows: [Row; 3] = [
        (
            "a cas takes place, and its value is read",
            &[
                write(2, Some(3), ONE),
                cas(4, Some(5), ONE, 2),
                read(6, 7, TWO),
            ],
            "yes",
        ),
        (
            "two cas from one value, one after the other",
            &[
                write(2, Some(3), ONE),
                cas(4, Some(5), ONE, 2),
                cas(6, Some(7), ONE, 3),
            ],
            "no at 2",
        ),
        (
            "a cas from null",
            &[cas(2, Some(3), Val::Null, 1), read(4, 5, ONE)],
            "yes",
        ),
    ];
    expect(&rt, &rows)
}

#[test]
fn misses(rt: HostRuntime) -> Result<(), Fail> {
    let rows: [Row; 3] = [
        (
            "a cas misses since the value is another",
            &[write(2, Some(3), ONE), miss(4, 5, THREE)],
            "yes",
        ),
        (
            "a cas misses though the value is its own",
            &[write(2, Some(3), ONE), miss(4, 5, ONE)],
            "no at 1",
        ),
        (
            "a cas that misses later is a miss from its call on, so the read before its reply can't be",
            &[write(2, Some(3), ONE), miss(4, 9, ONE), read(5, 6, TWO)],
            "no at 2",
        ),
    ];
    expect(&rt, &rows)
}

#[test]
fn pending_cas(rt: HostRuntime) -> Result<(), Fail> {
    let rows: [Row; 3] = [
        (
            "a pending cas that was read",
            &[
                write(2, Some(3), ONE),
                cas(4, None, ONE, 2),
                read(6, 7, TWO),
            ],
            "yes",
        ),
        (
            "a pending cas that was read, and then the value before it",
            &[
                write(2, Some(3), ONE),
                cas(4, None, ONE, 2),
                read(6, 7, TWO),
                read(8, 9, ONE),
            ],
            "no at 3",
        ),
        (
            "a pending cas that nobody needs",
            &[
                write(2, Some(3), ONE),
                cas(4, None, ONE, 2),
                read(5, 6, ONE),
            ],
            "yes",
        ),
    ];
    expect(&rt, &rows)
}

/// A register that isn't atomic, and the one order that is legal before the hopeless reply.
type Faulty<'a> = (&'static str, &'a [Operation], &'a [u32]);

fn expect_before(rt: &(impl AllocGlobal + Abort), rows: &[Faulty]) -> Result<(), Fail> {
    for (name, ops, expected) in rows {
        let before = match verdict(rt.alloc(), ops, Bounds::DEFAULT)? {
            Verdict::No { before, .. } => before,
            _ => None,
        };
        let order = before.ok_or(*name)?;
        assert_eq!(rt; order.as_slice(), *expected, "{name}");
    }
    Ok(())
}

#[test]
fn orders_before(rt: HostRuntime) -> Result<(), Fail> {
    let rows: [Faulty; 4] = [
        (
            "nothing has taken effect",
            &[read(2, 4, ONE), read(3, 5, TWO)],
            &[],
        ),
        (
            "a pending cas that was read took effect, and then the read",
            &[
                write(2, Some(3), ONE),
                cas(4, None, ONE, 2),
                read(6, 7, TWO),
                read(8, 9, ONE),
            ],
            &[0, 1, 2],
        ),
        (
            "what replies later isn't completed before",
            &[write(2, Some(3), ONE), miss(4, 9, ONE), read(5, 6, TWO)],
            &[0],
        ),
        (
            "a read of null during a write comes first",
            &[
                write(2, Some(6), ONE),
                read(3, 4, Val::Null),
                read(7, 8, Val::Null),
            ],
            &[1, 0],
        ),
    ];
    expect_before(&rt, &rows)
}

#[test]
fn bounds(rt: HostRuntime) -> Result<(), Fail> {
    // When the write is answered, none of the two cas has taken effect, or one.
    let ops = [
        cas(2, Some(6), Val::Null, 1),
        cas(3, Some(7), Val::Null, 2),
        write(4, Some(5), THREE),
    ];
    let steps = Bounds {
        steps: 1,
        ..Bounds::DEFAULT
    };
    let found = answer(rt.alloc(), &ops, steps)?;
    assert_eq!(rt; found.as_str(), "steps");
    let configurations = Bounds {
        configurations: 1,
        ..Bounds::DEFAULT
    };
    let found = answer(rt.alloc(), &ops, configurations)?;
    assert_eq!(rt; found.as_str(), "configurations");
    Ok(())
}

#[test]
fn unwritten(rt: HostRuntime) -> Result<(), Fail> {
    let ops = [
        read(2, 3, Val::Null),
        cas(4, None, THREE, 1),
        read(5, 6, ONE),
        cas(7, Some(8), TWO, 3),
    ];
    assert_eq!(rt; first_unwritten(rt.alloc(), &ops)?, Some(3));
    assert_eq!(rt; first_unwritten(rt.alloc(), &ops[..3])?, None);
    Ok(())
}
