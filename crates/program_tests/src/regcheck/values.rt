//! The writes and times of values, looked up by the value and by an event.
ghost use Rattle.std.specs.Prelude.{◌<◌, length};

use crate::regcheck::expect::expect_eq;
use crate::regcheck::operations::FAILED;
use crate::regcheck::short::arena_of;
use history_model::{EvId, Oper, RegId};
use history_text::Val;
use reg_arena::Arena;
use std::alloc::Global;
use std::process::Abort;
use std::test::Fail;
use std::thread::Threads;

/// The history of the two tables below.
const VALUED: &str = "p1 W x 5; p2 R x; p2 = null; p1 ok; p1 W x 7; p2 R x; p2 = 9";

/// A value, its write, the last call and the first reply.
type Valued = (Val, Option<Oper>, Option<u32>, Option<u32>);

// The values of its register x.
fn values() -> &'static [Valued] {
    &[
        (Val::Null, Some(Oper::Initial(RegId(0))), Some(3), Some(1)),
        (Val::Int(5), Some(Oper::Called(EvId(0))), Some(2), Some(5)),
        (Val::Int(7), Some(Oper::Called(EvId(4))), Some(6), None),
        (Val::Int(9), None, Some(7), Some(8)),
        (Val::Int(8), None, None, None),
    ]
}

// An event, and the same of its value.
fn events() -> &'static [(u32, Option<Oper>, Option<u32>, Option<u32>)] {
    &[
        (0, Some(Oper::Called(EvId(0))), Some(2), Some(5)),
        (1, None, None, None),
        (2, Some(Oper::Initial(RegId(0))), Some(3), Some(1)),
        (4, Some(Oper::Called(EvId(4))), Some(6), None),
        (6, None, Some(7), Some(8)),
    ]
}

// The values of the register of `FAILED`.
fn failed_values() -> &'static [Valued] {
    &[
        (Val::Null, Some(Oper::Initial(RegId(0))), Some(0), Some(1)),
        (Val::Int(5), None, Some(4), Some(3)),
        (Val::Int(6), None, None, None),
        (Val::Int(7), Some(Oper::Called(EvId(9))), Some(11), None),
    ]
}

// The value of a row has its write and its times in this register.
fn expect_value(rt: &impl Abort, arena: &Arena, x: RegId, row: &Valued)
    requires { x.0 < length arena.now.names }
{
    let (value, write, last_call, first_reply) = *row;
    expect_eq(rt, &arena.write_of(x, value), &write, &("write", value));
    expect_eq(
        rt,
        &arena.last_call(x, value),
        &last_call,
        &("last call", value),
    );
    expect_eq(
        rt,
        &arena.first_reply(x, value),
        &first_reply,
        &("first reply", value),
    );
}

// So it is of each row in the one register of the history.
fn expect_values(
    rt: &(impl Abort + Threads + Sync),
    alloc: Global,
    history: &str,
    rows: &[Valued],
) -> Result<(), Fail> {
    let arena = arena_of(rt, alloc, history)?;
    if arena.register_count() == 0 {
        return Err(Fail::from("no register"));
    }
    expect_eq(rt, &arena.name(RegId(0)), &"x", &"the register");
    for row in rows {
        expect_value(rt, &arena, RegId(0), row);
    }
    Ok(())
}

#[test]
fn values_have_their_writes_and_times(rt: HostRuntime) -> Result<(), Fail> {
    expect_values(&rt, rt.alloc(), VALUED, values())
}

#[test]
fn failed_writes_leave_their_values_to_reads(rt: HostRuntime) -> Result<(), Fail> {
    expect_values(&rt, rt.alloc(), FAILED, failed_values())
}

// The value of an event has its write and its times.
fn expect_event(rt: &impl Abort, arena: &Arena, row: &(u32, Option<Oper>, Option<u32>, Option<u32>))
    requires { row.now.0 < length arena.now.events }
{
    let (event, write, last_call, first_reply) = *row;
    let id = EvId(event);
    expect_eq(rt, &arena.write_of_event(id), &write, &("write", event));
    expect_eq(
        rt,
        &arena.last_call_of(id),
        &last_call,
        &("last call", event),
    );
    expect_eq(
        rt,
        &arena.first_reply_of(id),
        &first_reply,
        &("first reply", event),
    );
}

// So it is of the event of each row.
fn expect_events(rt: &impl Abort, arena: &Arena) {
    for row in events() {
        if row.0 < arena.event_count() {
            expect_event(rt, arena, row);
        }
    }
    expect_eq(rt, &arena.event_count(), &7, &"events");
}

#[test]
fn events_have_the_writes_and_times_of_their_values(rt: HostRuntime) -> Result<(), Fail> {
    let arena = arena_of(&rt, rt.alloc(), VALUED)?;
    expect_events(&rt, &arena);
    Ok(())
}
