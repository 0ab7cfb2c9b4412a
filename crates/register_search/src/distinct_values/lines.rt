//! The calls and the replies of a register as lines of a history.
use crate::Moment;
use history_model::{Act, Operation};
use history_text::{Kind, LineEvent, LineFault, Name, OptionalName, ReplyParts, Val};
use std::alloc::{AllocError, Global};

/// The name of the register.
const REGISTER: &str = "x";

/// A line for each moment, in which each operation has a process of its own; none if some operation isn't a
/// read or the write of a number.
pub(crate) fn lines_of(
    alloc: Global,
    ops: &[Operation],
    events: &[Moment],
) -> Result<Option<Vec<Result<LineEvent, LineFault>>>, AllocError> {
    let mut lines = Vec::with_capacity(alloc, events.len())?;
    for event in events {
        let Some(line) = line_of(alloc, ops, *event)? else {
            return Ok(None);
        };
        lines.push(Ok(line))?;
    }
    Ok(Some(lines))
}

/// The line of a moment.
fn line_of(
    alloc: Global,
    ops: &[Operation],
    event: Moment,
) -> Result<Option<LineEvent>, AllocError> {
    let process = match event {
        Moment::Call(place) => place,
        Moment::Reply(place) => place,
    };
    let Some(op) = ops.get(process as usize) else {
        return Ok(None);
    };
    let kind = match event {
        Moment::Call(_) => called(alloc, op.act)?,
        Moment::Reply(_) => Some(replied(op.act)),
    };
    Ok(kind.map(|kind| LineEvent {
        line: op.line,
        process,
        kind,
    }))
}

/// What the line of a call says.
fn called(alloc: Global, act: Act) -> Result<Option<Kind>, AllocError> {
    match act {
        Act::Read(_) => Ok(Some(Kind::CallRead(Name::new(alloc, REGISTER)?))),
        Act::Write(Val::Int(number)) => {
            let name = Name::new(alloc, REGISTER)?;
            Ok(Some(Kind::CallWrite(name, number)))
        }
        _ => Ok(None),
    }
}

/// What the line of a reply says: of a read its value.
fn replied(act: Act) -> Kind {
    let value = match act {
        Act::Read(given) => given,
        _ => None,
    };
    Kind::Reply(ReplyParts {
        op: None,
        register: OptionalName::none(),
        value,
        ok: None,
    })
}
