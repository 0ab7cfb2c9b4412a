//! An event, and its line.
ghost use Rattle.std.specs.Prelude.{◌≡◌, ◌++◌, string_bytes, OnOk};
ghost use Rattle.history_generator.specs.Line.{line_of};

use std::alloc::AllocError;
use std::fmt::Write;

/// What happens in a history. Processes and registers are numbered from 0, the writes of a
/// register from 1; a write writes its number.
#[derive(Clone, Copy, Debug, PartialEq, Eq)]
pub enum Event {
    /// A process calls a read of a register.
    ReadCall {
        process: u32,
        register: u32,
    },
    /// The open read of a process gives the number of the write that it saw, or none for the initial one.
    ReadReply {
        process: u32,
        write: Option<u32>,
    },
    /// A process calls a write of a register.
    WriteCall {
        process: u32,
        register: u32,
        write: u32,
    },
    /// The open write of a process ends.
    WriteReply {
        process: u32,
    },
    /// The open call of a process ends and had no effect.
    Fail {
        process: u32,
    },
    /// A process crashes, with an open call or without one.
    Crash {
        process: u32,
    },
}

/// Adds the line of an event, with its line feed. After an error a part of it may be there.
pub fn push_line(text: &mut String, event: Event) -> Result<(), AllocError>
    ensures { OnOk result (string_bytes text.new ≡ string_bytes text.old ++ line_of event) }
{
    match event {
        Event::ReadCall { process, register } => writeln!(
            text,
            r#"{{"process":{process},"event":"call","op":"read","register":"r{register}"}}"#
        ),
        Event::ReadReply { process, write } => match write {
            Some(write) => writeln!(
                text,
                r#"{{"process":{process},"event":"reply","value":{write}}}"#
            ),
            None => writeln!(
                text,
                r#"{{"process":{process},"event":"reply","value":null}}"#
            ),
        },
        Event::WriteCall {
            process,
            register,
            write,
        } => writeln!(
            text,
            r#"{{"process":{process},"event":"call","op":"write","register":"r{register}","value":{write}}}"#
        ),
        Event::WriteReply { process } => {
            writeln!(text, r#"{{"process":{process},"event":"reply"}}"#)
        }
        Event::Fail { process } => { writeln!(text, r#"{{"process":{process},"event":"fail"}}"#) }
        Event::Crash { process } => { writeln!(text, r#"{{"process":{process},"event":"crash"}}"#) }
    }
}
