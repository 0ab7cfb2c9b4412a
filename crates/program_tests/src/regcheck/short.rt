//! Histories in short, and the arenas of them.
use history_text::{LineEvent, LineFault, MAX_INPUT, read_lines};
use reg_arena::Arena;
use std::alloc::Global;
use std::test::Fail;
use std::thread::Threads;

// Adds what a call says after its process.
fn add_call(text: &mut String, op: &str, register: &str) -> Result<(), Fail> {
    write!(
        text,
        ",\"event\":\"call\",\"op\":\"{op}\",\"register\":\"{register}\""
    )?;
    Ok(())
}

// Adds a value.
fn add_value(text: &mut String, value: &str) -> Result<(), Fail> {
    write!(text, ",\"value\":{value}")?;
    Ok(())
}

// Adds what a reply, a fail or a crash says after its process, but for a value.
fn add_end(text: &mut String, event: &str) -> Result<(), Fail> {
    write!(text, ",\"event\":\"{event}\"")?;
    Ok(())
}

// Adds what an event in short says after its process.
fn add_event(text: &mut String, what: &str, third: &str, fourth: &str) -> Result<(), Fail> {
    match what {
        "W" => {
            add_call(text, "write", third)?;
            add_value(text, fourth)
        }
        "R" => add_call(text, "read", third),
        "ok" => add_end(text, "reply"),
        "=" => {
            add_end(text, "reply")?;
            add_value(text, third)
        }
        _ if third == "=" => {
            add_end(text, what)?;
            add_value(text, fourth)
        }
        _ => add_end(text, what),
    }
}

// Adds the line of an event in short: `p1 W x 5` and `p2 R x` are calls, `p1 ok` and `p2 = 5` replies, and
// `p1 fail`, `p1 fail = 5` and `p1 crash` fails and a crash.
fn add_line(text: &mut String, event: &str) -> Result<(), Fail> {
    let mut words = event.split_whitespace();
    let process = words.next().unwrap_or("").trim_start_matches('p');
    let what = words.next().unwrap_or("");
    let third = words.next().unwrap_or("");
    let fourth = words.next().unwrap_or("");
    write!(text, "{{\"process\":{process}")?;
    add_event(text, what, third, fourth)?;
    text.push_str("}\n")?;
    Ok(())
}

// The text of a history in short, with a semicolon between two events.
pub(crate) fn text_of(alloc: Global, history: &str) -> Result<String, Fail> {
    let mut text = String::new(alloc);
    for event in history.split(';') {
        add_line(&mut text, event.trim())?;
    }
    Ok(text)
}

// The lines of a history in short.
pub(crate) fn lines(
    rt: &(impl Threads + Sync),
    alloc: Global,
    history: &str,
) -> Result<Vec<Result<LineEvent, LineFault>>, Fail> {
    let text = text_of(alloc, history)?;
    let bytes = text.as_bytes();
    if bytes.len() > MAX_INPUT {
        return Err(Fail::from("too long"));
    }
    Ok(read_lines(rt, alloc, bytes)?)
}

// The arena of a history in short that is well formed.
pub(crate) fn arena_of(
    rt: &(impl Threads + Sync),
    alloc: Global,
    history: &str,
) -> Result<Arena, Fail> {
    match Arena::build(alloc, lines(rt, alloc, history)?) {
        Ok(arena) => Ok(arena),
        Err(_) => Err(Fail::from("the history was refused")),
    }
}
