//! Histories that are laid out and leave nothing to chance.
use crate::event::Event;
use crate::history::History;
use crate::kind::Kind;
use crate::settings::Settings;
use std::alloc::AllocError;

/// A write with its reply.
fn write_alone(
    history: &mut History,
    process: u32,
    register: u32,
    write: u32,
) -> Result<(), AllocError> {
    history.record(Event::WriteCall {
        process,
        register,
        write,
    })?;
    history.record(Event::WriteReply { process })
}

/// The calls of reads by the first processes, as many as there are readers.
fn read_calls(history: &mut History, readers: u32, register: u32) -> Result<(), AllocError> {
    for process in 0..readers {
        history.record(Event::ReadCall { process, register })?;
    }
    Ok(())
}

/// The replies to those reads, in the order of the calls or in reverse.
fn read_replies(
    history: &mut History,
    kind: Kind,
    readers: u32,
    write: u32,
) -> Result<(), AllocError> {
    for turn in 0..readers {
        let process = if kind == Kind::HotReverse {
            readers - 1 - turn
        } else {
            turn
        };
        history.record(Event::ReadReply {
            process,
            write: Some(write),
        })?;
    }
    Ok(())
}

/// Rounds of one write and then a read by each process, all of them open at once. Atomic: the reads of a
/// write lie between its reply and the call of the next write.
pub(crate) fn hot(settings: Settings, history: &mut History) -> Result<(), AllocError> {
    for round in 0..settings.events {
        if history.left() < 2 {
            break;
        }
        let register = round % settings.registers;
        let write = round / settings.registers + 1;
        write_alone(history, 0, register, write)?;
        let readers = settings.processes.min(history.left() / 2);
        read_calls(history, readers, register)?;
        read_replies(history, settings.kind, readers, write)?;
    }
    history.fill(settings.processes)
}

/// The calls of writes by the processes from 1 on, each of its own number.
fn write_calls(history: &mut History, writers: u32) -> Result<(), AllocError> {
    for writer in 1..=writers {
        history.record(Event::WriteCall {
            process: writer,
            register: 0,
            write: writer,
        })?;
    }
    Ok(())
}

/// The replies to those writes, in the order of the calls.
fn write_replies(history: &mut History, writers: u32) -> Result<(), AllocError> {
    for process in 1..=writers {
        history.record(Event::WriteReply { process })?;
    }
    Ok(())
}

/// Reads of a write by process 0, one after the other.
fn reads_alone(history: &mut History, reads: u32, write: u32) -> Result<(), AllocError> {
    for _ in 0..reads {
        history.record(Event::ReadCall {
            process: 0,
            register: 0,
        })?;
        history.record(Event::ReadReply {
            process: 0,
            write: Some(write),
        })?;
    }
    Ok(())
}

/// Writes of all processes but one, open all through the write and the reads of that one.
/// Atomic: each of their zones overlaps the forward zone and none lies in it, as when they all
/// take effect right before that one's write.
pub(crate) fn zones(settings: Settings, history: &mut History) -> Result<(), AllocError> {
    let operations = history.left() / 2;
    if operations > 0 {
        let writers = (settings.processes - 1).min(operations - 1);
        write_calls(history, writers)?;
        write_alone(history, 0, 0, writers + 1)?;
        reads_alone(history, operations - 1 - writers, writers + 1)?;
        write_replies(history, writers)?;
    }
    history.fill(settings.processes)
}
