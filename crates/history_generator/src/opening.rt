//! The first events of a history that isn't atomic. Each opening has a
//! fault, which stays one whatever follows.
use crate::event::Event;
use crate::history::History;
use crate::kind::Kind;
use crate::memory::{Memory, Register};
use std::alloc::AllocError;

/// While the first write is open, a read gives its value, and a read after that one the initial value.
static INVERSION: [Event; 6] = [
    Event::WriteCall {
        process: 0,
        register: 0,
        write: 1,
    },
    Event::ReadCall {
        process: 1,
        register: 0,
    },
    Event::ReadReply {
        process: 1,
        write: Some(1),
    },
    Event::ReadCall {
        process: 1,
        register: 0,
    },
    Event::ReadReply {
        process: 1,
        write: None,
    },
    Event::WriteReply { process: 0 },
];

/// After the first write, a read gives the initial value.
static OLD_VALUE: [Event; 4] = [
    Event::WriteCall {
        process: 0,
        register: 0,
        write: 1,
    },
    Event::WriteReply { process: 0 },
    Event::ReadCall {
        process: 0,
        register: 0,
    },
    Event::ReadReply {
        process: 0,
        write: None,
    },
];

/// The events that a kind begins with.
fn opening(kind: Kind) -> &'static [Event] {
    match kind {
        Kind::Inversion => INVERSION.as_slice(),
        Kind::Stale | Kind::Lost => OLD_VALUE.as_slice(),
        _ => &[],
    }
}

/// Adds events in their order.
fn record_all(history: &mut History, events: &[Event]) -> Result<(), AllocError> {
    for event in events {
        history.record(*event)?;
    }
    Ok(())
}

/// Begins the history with the fault of its kind, if it has one that fits the events
/// wanted, and leaves the memory as it is then.
pub(crate) fn open(
    kind: Kind,
    memory: &mut Memory,
    history: &mut History,
) -> Result<(), AllocError> {
    let events = opening(kind);
    if events.is_empty() || (history.left() as usize) < events.len() {
        return Ok(());
    }
    let held = if kind == Kind::Lost { 0 } else { 1 };
    memory.set(
        0,
        Register {
            called: 1,
            held,
            replied: 1,
        },
    );
    record_all(history, events)
}
