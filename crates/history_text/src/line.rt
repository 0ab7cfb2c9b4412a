//! One line: its event, or the lowest-numbered fault that applies to it.
//!
//! `flat_line` reads the common form of a line with no tree. Every other line, and each one that has a fault,
//! is read as a JSON value here, if it isn't too long. Faults are looked for by ascending number, so the
//! first that is found is the lowest-numbered.
ghost use Rattle.std.specs.Prelude.{◌≡◌, IfOk};
ghost use Rattle.serde_json.specs.View.{view};
ghost use Rattle.history_text.specs.Reading.{cas_call, call_kind, call_of, parts_form, kind_of, event_of};
ghost use Rattle.history_text.specs.Reading.{line_form, event_reading, line_reading, plain_event};
ghost use Rattle.history_text.specs.Reading.{IsWithoutCas, cas_form, reply_kind};
ghost use Rattle.history_text.specs.Limits.{IsName};
ghost use Rattle.history_text.specs.Memory.{Gives, GivesLine};

use crate::apart::Apart;
use crate::event::{
    AnyEvent, AnyKind, CasCall, Compared, EventWord, Kind, LineEvent, OpWord, Operations,
    OtherCall, ReplyParts, Val,
};
use crate::fault::{LineFault, LineKind};
use crate::flat_line::flat_event;
use crate::limits::MAX_LINE;
use crate::members;
use crate::name::Name;
use crate::optional_name::OptionalName;
use crate::refused::Refused;
use serde_json::Value;
use std::alloc::{AllocError, Global};
use thiserror::Error;

/// Why a line gave no event. Nothing of the line is kept.
#[derive(Clone, Copy, Debug, PartialEq, Eq, Error)]
pub enum LineError {
    /// The line has this fault, and no lower-numbered one.
    #[error(transparent)]
    Fault(LineFault),
    /// Memory ran out; nothing is known of the line.
    #[error("out of memory")]
    Memory,
}

/// The event of line `line` of a history of reads and writes, as [`read_event`] gives it.
pub fn read_line(alloc: Global, bytes: &[u8], line: u32) -> Result<LineEvent, LineError>
    ensures meaning { GivesLine (line_reading line bytes.now) result }
    ensures no_cas { IsWithoutCas (line_reading line bytes.now) }
{
    plain(read_event(alloc, bytes, line, Operations::ReadsAndWrites)?)
}

/// The event, where operations are reads and writes.
#[inline(always)]
fn plain(event: AnyEvent) -> Result<LineEvent, LineError>
    ensures { GivesLine (plain_event event.line event.process event.kind) result }
{
    let AnyEvent {
        line,
        process,
        kind,
    } = event;
    match kind {
        AnyKind::Plain(kind) => Ok(LineEvent {
            line,
            process,
            kind,
        }),
        AnyKind::CallOther(_, _) | AnyKind::Telling(_, _) => Err(LineError::Fault(LineFault {
            line,
            kind: LineKind::BadOp(Operations::ReadsAndWrites),
        })),
    }
}

/// The event of line `line`, given without its line feed, or its lowest-numbered fault, where these
/// operations are taken. [`lines_of`](crate::lines_of) leaves out blank lines; here one would be `NotJson`.
///
/// JSON is read as `serde_json`'s `Value::from_slice` reads it; of equal names in one object the
/// last counts, and names that the format doesn't know are ignored.
#[inline(always)]
pub fn read_event(
    alloc: Global,
    bytes: &[u8],
    line: u32,
    operations: Operations,
) -> Result<AnyEvent, LineError>
    ensures { GivesLine (event_reading operations line bytes.now) result }
{
    match event_in(alloc, bytes, line, operations) {
        Ok(event) => Ok(event),
        Err(Refused::Fault(kind)) => Err(LineError::Fault(LineFault { line, kind })),
        Err(Refused::Memory) => Err(LineError::Memory),
    }
}

fn event_in(
    alloc: Global,
    bytes: &[u8],
    line: u32,
    operations: Operations,
) -> Result<AnyEvent, Refused>
    ensures { Gives (line_form operations line bytes.now) result }
{
    if bytes.len() > MAX_LINE {
        return Err(Refused::Fault(LineKind::TooLong));
    }
    if let Some(event) = flat_event(alloc, bytes, line, operations)? {
        return Ok(event);
    }
    match Value::from_slice(alloc, bytes) {
        Ok(value) => event(alloc, &value, line, operations),
        Err(error) => {
            if error.is_memory() {
                Err(Refused::Memory)
            } else {
                Err(Refused::Fault(LineKind::NotJson))
            }
        }
    }
}

fn event(
    alloc: Global,
    value: &Value,
    line: u32,
    operations: Operations,
) -> Result<AnyEvent, Refused>
    ensures { Gives (event_of operations line (view value.now)) result }
{
    if !value.is_object() {
        return Err(Refused::Fault(LineKind::NotObject));
    }
    let process = members::process(value).ok_or(LineKind::BadProcess)?;
    let event = members::event(value).ok_or(LineKind::BadEvent)?;
    let kind = kind(alloc, value, event, operations)?;
    Ok(AnyEvent {
        line,
        process,
        kind,
    })
}

fn kind(
    alloc: Global,
    value: &Value,
    event: EventWord,
    operations: Operations,
) -> Result<AnyKind, Refused>
    ensures { Gives (kind_of operations (view value.now) event) result }
{
    match event {
        EventWord::Call => call(alloc, value, operations),
        EventWord::Reply => reply(alloc, value, operations),
        EventWord::Fail => Ok(AnyKind::Plain(Kind::Fail(parts(alloc, value, operations)?))),
        EventWord::Crash => Ok(AnyKind::Plain(Kind::Crash)),
    }
}

fn call(alloc: Global, value: &Value, operations: Operations) -> Result<AnyKind, Refused>
    ensures { Gives (call_kind operations (view value.now)) result }
{
    let op = members::call_op(value, operations).ok_or(LineKind::BadOp(operations))?;
    let register = members::call_register(value).ok_or(LineKind::BadRegister)?;
    called(alloc, value, op, register)
}

/// What is called on the register of this name.
fn called(alloc: Global, value: &Value, op: OpWord, register: &str) -> Result<AnyKind, Refused>
    requires { IsName register.now }
    ensures { Gives (call_of (view value.now) op register.now) result }
{
    match op {
        OpWord::Read => {
            if !members::names_no_value(value) {
                return Err(Refused::Fault(LineKind::BadValue));
            }
            Ok(AnyKind::Plain(Kind::CallRead(Name::new(alloc, register)?)))
        }
        OpWord::Write => {
            let written = members::written(value).ok_or(LineKind::BadValue)?;
            Ok(AnyKind::Plain(Kind::CallWrite(Name::new(alloc, register)?, written)))
        }
        OpWord::Cas => cas_called(alloc, value, register),
        OpWord::Delete => {
            if !members::names_no_value(value) {
                return Err(Refused::Fault(LineKind::BadValue));
            }
            Ok(AnyKind::CallOther(Name::new(alloc, register)?, OtherCall::Delete))
        }
        OpWord::Swap => {
            let written = members::written(value).ok_or(LineKind::BadValue)?;
            Ok(AnyKind::CallOther(Name::new(alloc, register)?, OtherCall::Swap(written)))
        }
    }
}

fn cas_called(alloc: Global, value: &Value, register: &str) -> Result<AnyKind, Refused>
    requires { IsName register.now }
    ensures { Gives (cas_call (view value.now) register.now) result }
{
    if !members::names_no_value(value) {
        return Err(Refused::Fault(LineKind::BadValue));
    }
    let compared = members::compared(value).ok_or(LineKind::BadFromOrTo)?;
    let to = members::to(value).ok_or(LineKind::BadFromOrTo)?;
    let asks_old = members::asks_old(value);
    let call = cas_of(alloc, compared, to, asks_old)?;
    Ok(AnyKind::CallOther(Name::new(alloc, register)?, call))
}

/// A cas, in the form that its parts allow.
fn cas_of(
    alloc: Global,
    compared: Compared,
    to: Val,
    asks_old: bool,
) -> Result<OtherCall, AllocError>
    ensures { IfOk result (λ call. call ≡ cas_form compared to asks_old) }
{
    match (compared, to, asks_old) {
        (Compared::From(from), Val::Int(number), false) => Ok(OtherCall::Cas(from, number)),
        _ => {
            let cas = CasCall {
                compared,
                to,
                asks_old,
            };
            Ok(OtherCall::CasOf(Apart::new(alloc, cas)?))
        }
    }
}

/// A reply, with what it tells of the value that its operation met.
fn reply(alloc: Global, value: &Value, operations: Operations) -> Result<AnyKind, Refused>
    ensures { Gives (reply_kind operations (view value.now)) result }
{
    let parts = parts(alloc, value, operations)?;
    let told = members::told(value, operations);
    if told.is_nothing() {
        return Ok(AnyKind::Plain(Kind::Reply(parts)));
    }
    Ok(AnyKind::Telling(parts, Apart::new(alloc, told)?))
}

/// What a reply or a fail says of its call.
fn parts(alloc: Global, value: &Value, operations: Operations) -> Result<ReplyParts, Refused>
    ensures { Gives (parts_form operations (view value.now)) result }
{
    let op = members::reply_op(value, operations).ok_or(LineKind::BadOp(operations))?;
    let text = members::reply_register(value).ok_or(LineKind::BadRegister)?;
    let replied = members::reply_value(value).ok_or(LineKind::BadValue)?;
    let register = match text {
        None => OptionalName::none(),
        Some(text) => OptionalName::new(alloc, text)?,
    };
    Ok(ReplyParts {
        op,
        register,
        value: replied,
        ok: members::ok(value, operations),
    })
}
