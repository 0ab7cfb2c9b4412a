//! Walks through the events of a register, a process and a value.
use crate::regcheck::expect::expect_eq;
use crate::regcheck::short::arena_of;
use history_model::RegId;
use history_text::Val;
use reg_arena::Arena;
use std::alloc::Global;
use std::process::Abort;
use std::test::Fail;
use std::thread::Threads;

// The lines of a register's events, as its walk meets them.
fn add_register(text: &mut String, arena: &Arena, register: RegId) -> Result<(), Fail> {
    let mut at = arena.first_of_register(register);
    for _ in 0..arena.event_count() {
        let Some(id) = at else { break };
        if id.0 >= arena.event_count() {
            break;
        }
        write!(text, " {}", arena.event(id).line)?;
        at = arena.next_in_register(id);
    }
    Ok(())
}

// The lines of a process's events, as its walk meets them.
pub(crate) fn add_process(text: &mut String, arena: &Arena, process: u32) -> Result<(), Fail> {
    let mut at = arena.first_of_process(process);
    for _ in 0..arena.event_count() {
        let Some(id) = at else { break };
        if id.0 >= arena.event_count() {
            break;
        }
        write!(text, " {}", arena.event(id).line)?;
        at = arena.next_in_process(id);
    }
    Ok(())
}

// The lines of a value's events in a register, as its walk meets them.
fn add_value(text: &mut String, arena: &Arena, register: RegId, value: Val) -> Result<(), Fail> {
    let mut at = arena.first_with_value(register, value);
    for _ in 0..arena.event_count() {
        let Some(id) = at else { break };
        if id.0 >= arena.event_count() {
            break;
        }
        write!(text, " {}", arena.event(id).line)?;
        at = arena.next_with_value(id);
    }
    Ok(())
}

// The values of the walks.
fn values() -> &'static [Val] {
    &[
        Val::Null,
        Val::Int(1),
        Val::Int(2),
        Val::Int(5),
        Val::Int(9),
    ]
}

// The walks of a register and of these values in it.
fn add_register_walks(text: &mut String, arena: &Arena, register: u32) -> Result<(), Fail> {
    write!(text, "register {register}:")?;
    add_register(text, arena, RegId(register))?;
    for value in values() {
        text.push_str(" |")?;
        add_value(text, arena, RegId(register), *value)?;
    }
    text.push_str("; ")?;
    Ok(())
}

// The walks of the processes 1 to 4.
fn add_process_walks(text: &mut String, arena: &Arena) -> Result<(), Fail> {
    for process in 1..5 {
        write!(text, "p{process}:")?;
        add_process(text, arena, process)?;
        text.push_str("; ")?;
    }
    Ok(())
}

// Adds all walks of an arena of one or two registers, x and y.
pub(crate) fn add_walks(text: &mut String, arena: &Arena) -> Result<(), Fail> {
    add_register_walks(text, arena, 0)?;
    add_register_walks(text, arena, 1)?;
    add_process_walks(text, arena)
}

/// A name, a history in short, and its walks.
type Row = (&'static str, &'static str, &'static str);

// Histories of one or two registers.
fn rows() -> &'static [Row] {
    &[
        (
            "a read before its write",
            "p2 R x; p2 = 5; p1 W x 5; p1 ok",
            "register 0: 1 2 3 4 | | | | 2 3 4 |; register 1: | | | | |; p1: 3 4; p2: 1 2; p3:; p4:; ",
        ),
        (
            "two registers",
            "p1 R x; p2 R y; p3 W x 1; p4 W y 2; p1 = 1; p2 = 2; p3 ok; p4 ok",
            "register 0: 1 3 5 7 | | 3 5 7 | | |; register 1: 2 4 6 8 | | | 4 6 8 | |; p1: 1 5; p2: 2 6; p3: 3 7; p4: 4 8; ",
        ),
        (
            "one value in two registers",
            "p1 W x 5; p1 ok; p1 W y 5; p1 ok",
            "register 0: 1 2 | | | | 1 2 |; register 1: 3 4 | | | | 3 4 |; p1: 1 2 3 4; p2:; p3:; p4:; ",
        ),
        (
            "a read around its write",
            "p2 R x; p1 W x 5; p1 ok; p2 = 5",
            "register 0: 1 2 3 4 | | | | 2 3 4 |; register 1: | | | | |; p1: 2 3; p2: 1 4; p3:; p4:; ",
        ),
        (
            "a failed write between two reads of its value, and a crash",
            "p2 R x; p2 = 5; p1 W x 5; p1 fail; p3 R x; p3 = 5; p1 R y; p1 crash; p2 crash",
            "register 0: 1 2 3 4 5 6 | | | | 2 3 4 6 |; register 1: 7 | | | | |; p1: 3 4 7 8; p2: 1 2 9; p3: 5 6; p4:; ",
        ),
        (
            "failed reads, one of which gives null",
            "p1 R x; p1 fail; p2 R x; p2 fail = null; p1 R x",
            "register 0: 1 2 3 4 5 | | | | |; register 1: | | | | |; p1: 1 2 5; p2: 3 4; p3:; p4:; ",
        ),
        (
            "a value that nobody wrote, null, and pending calls",
            "p2 R x; p2 = 9; p2 R x; p2 = null; p1 W x 5; p2 R x",
            "register 0: 1 2 3 4 5 6 | 4 | | | 5 | 2; register 1: | | | | |; p1: 5; p2: 1 2 3 4 6; p3:; p4:; ",
        ),
    ]
}

// The walks of a history.
fn walks_of(rt: &(impl Threads + Sync), alloc: Global, history: &str) -> Result<String, Fail> {
    let arena = arena_of(rt, alloc, history)?;
    let mut text = String::new(alloc);
    add_walks(&mut text, &arena)?;
    Ok(text)
}

// The walks of each of these histories.
fn expect_walks(rt: &(impl Threads + AllocGlobal + Abort + Sync)) -> Result<(), Fail> {
    for (name, history, want) in rows() {
        let walks = walks_of(rt, rt.alloc(), history)?;
        expect_eq(rt, &walks.as_str(), want, name);
    }
    Ok(())
}

#[test]
fn walks_meet_every_event(rt: HostRuntime) -> Result<(), Fail> {
    expect_walks(&rt)
}
