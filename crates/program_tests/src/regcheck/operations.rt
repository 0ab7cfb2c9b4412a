//! The operations of events, their times, and which of them precede which.
ghost use Rattle.std.specs.Prelude.{◌<◌, length};

use crate::regcheck::expect::expect_eq;
use crate::regcheck::short::arena_of;
use history_model::{EvId, Op, Oper};
use reg_arena::Arena;
use std::alloc::Global;
use std::process::Abort;
use std::test::Fail;

// Of each event of `p1 W x 5; p2 R x; p2 = null; p1 ok; p1 W x 7; p2 R y`, which have the times 2 to 7, the
// operation; the call of line 5 has no reply.
fn operations() -> &'static [&'static str] {
    &[
        "Op { line: 1, call: 2, reply: Some(5), process: Some(1), register: RegId(0), kind: WriteOp, value: Some(Int(5)) }",
        "Op { line: 2, call: 3, reply: Some(4), process: Some(2), register: RegId(0), kind: ReadOp, value: Some(Null) }",
        "Op { line: 2, call: 3, reply: Some(4), process: Some(2), register: RegId(0), kind: ReadOp, value: Some(Null) }",
        "Op { line: 1, call: 2, reply: Some(5), process: Some(1), register: RegId(0), kind: WriteOp, value: Some(Int(5)) }",
        "Op { line: 5, call: 6, reply: None, process: Some(1), register: RegId(0), kind: WriteOp, value: Some(Int(7)) }",
        "Op { line: 6, call: 7, reply: None, process: Some(2), register: RegId(1), kind: ReadOp, value: None }",
    ]
}

// The operation of an event, if it belongs to one.
fn op_at(arena: &Arena, id: EvId) -> Option<Op>
    requires { id.0 < length arena.now.events }
{
    match arena.op_of(id) {
        Some(oper) => Some(arena.op(oper)),
        None => None,
    }
}

// An operation as it is shown.
fn shown(alloc: Global, op: Op) -> Result<String, Fail> {
    Ok(format!(in alloc; "{op:?}")?)
}

// The operations of all events, of two registers.
fn expect_operations(rt: &(impl AllocGlobal + Abort), arena: &Arena) -> Result<(), Fail> {
    let mut event = 0;
    for want in operations() {
        if event >= arena.event_count() {
            return Err(Fail::from("too few events"));
        }
        let op = op_at(arena, EvId(event)).ok_or("an event without an operation")?;
        expect_eq(rt, &shown(rt.alloc(), op)?.as_str(), want, &event);
        event = event.saturating_add(1);
    }
    expect_eq(rt, &arena.event_count(), &event, &"events");
    expect_eq(rt, &arena.register_count(), &2, &"registers");
    Ok(())
}

#[test]
fn operations_have_their_times(rt: HostRuntime) -> Result<(), Fail> {
    let history = "p1 W x 5; p2 R x; p2 = null; p1 ok; p1 W x 7; p2 R y";
    let arena = arena_of(&rt, rt.alloc(), history)?;
    expect_operations(&rt, &arena)
}

/// A failed write with a read of its value before it and one that ends after it, a write that fails unread, a
/// failed read, and a write that a crash leaves open.
pub(crate) const FAILED: &str =
    "p2 R x; p2 = 5; p2 R x; p1 W x 5; p1 fail; p2 = 5; p1 W x 6; p1 fail; p3 R x; p1 W x 7; p1 crash; p3 fail";

// An event of this history, its operation, and whether it begins one.
fn failed_operations() -> &'static [(u32, Option<Oper>, bool)] {
    &[
        (0, Some(Oper::Called(EvId(0))), true),
        (1, Some(Oper::Called(EvId(0))), false),
        (2, Some(Oper::Called(EvId(2))), true),
        (3, None, false),
        (4, None, false),
        (5, Some(Oper::Called(EvId(2))), false),
        (6, None, false),
        (7, None, false),
        (8, None, false),
        (9, Some(Oper::Called(EvId(9))), true),
        (10, None, false),
        (11, None, false),
    ]
}

// Each event of this history has its operation, or none.
fn expect_failed_operations(rt: &impl Abort, arena: &Arena) {
    for (event, oper, begins) in failed_operations() {
        if *event < arena.event_count() {
            let id = EvId(*event);
            let got = (arena.op_of(id), arena.begins(id));
            expect_eq(rt, &got, &(*oper, *begins), event);
        }
    }
}

// The crash has no register, and the call that it left open is pending.
fn expect_crash(rt: &impl Abort, arena: &Arena) -> Result<(), Fail> {
    if arena.event_count() != 12 {
        return Err(Fail::from("not 12 events"));
    }
    expect_eq(
        rt,
        &arena.next_in_register(EvId(10)),
        &None,
        &"in its register",
    );
    expect_eq(
        rt,
        &arena.next_with_value(EvId(10)),
        &None,
        &"with its value",
    );
    let next = arena.next_in_process(EvId(9));
    expect_eq(rt, &next, &Some(EvId(10)), &"in the process");
    let op = op_at(arena, EvId(9)).ok_or("the last write has no operation")?;
    expect_eq(rt, &op.reply, &None, &"the reply of the last write");
    Ok(())
}

// Fails and crashes, the calls that failed and those that a crash left open.
#[test]
fn failed_calls_are_no_operations(rt: HostRuntime) -> Result<(), Fail> {
    let arena = arena_of(&rt, rt.alloc(), FAILED)?;
    expect_failed_operations(&rt, &arena);
    expect_crash(&rt, &arena)
}

// Whether the operation of one event precedes that of another.
fn precedes(arena: &Arena, one: u32, other: u32) -> bool
    requires one { one < length arena.now.events }
    requires other { other < length arena.now.events }
{
    match (arena.op_of(EvId(one)), arena.op_of(EvId(other))) {
        (Some(one), Some(other)) => arena.precedes(one, other),
        _ => false,
    }
}

// Two events, and whether the operation of one precedes that of the other.
fn orders() -> &'static [(u32, u32, bool)] {
    &[
        (0, 1, false),
        (0, 3, true),
        (1, 3, false),
        (1, 5, true),
        (3, 5, false),
        (5, 0, false),
    ]
}

// Which operations of this history precede which.
fn expect_order(rt: &impl Abort, arena: &Arena) {
    for (one, other, want) in orders() {
        if *one < arena.event_count() && *other < arena.event_count() {
            let got = precedes(arena, *one, *other);
            expect_eq(rt, &got, want, &(*one, *other));
        }
    }
    expect_eq(rt, &arena.event_count(), &6, &"events");
}

#[test]
fn operations_precede_by_reply_and_call(rt: HostRuntime) -> Result<(), Fail> {
    let history = "p1 W x 5; p2 R x; p1 ok; p1 W x 6; p2 = 5; p2 R x";
    let arena = arena_of(&rt, rt.alloc(), history)?;
    expect_order(&rt, &arena);
    Ok(())
}
