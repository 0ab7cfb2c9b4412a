//! The event of a flat line, read with no tree. Flat is the common form of a line: one object whose members
//! have known names and plain values, as `flat_members` reads them.
//!
//! The contract of `read_event` says what it would say without this module: [`flat_event`] gives an event
//! only if `line_form` gives it, which is defined over the JSON that `serde_json` reads. A line that is
//! not flat, or has a fault, gives `None`, and `line` reads it as JSON. So faults are judged there alone.
ghost use Rattle.std.specs.Prelude.{◌≡◌, ◌≤◌, length, codes, IfSome, IfOk, Ok, Some, ⊤};
ghost use Rattle.std.specs.Bool.{MatchBool};
ghost use Rattle.serde_json.specs.Data.{Members, object};
ghost use Rattle.serde_json.specs.Find.{get_member};
ghost use Rattle.history_text.specs.Limits.{IsName, MAX_LINE};
ghost use Rattle.history_text.specs.Members.{ok_form, op_form, optional};
ghost use Rattle.history_text.specs.Reading.{cas_call, call_kind, parts_form, kind_of, line_form};
ghost use Rattle.history_text.specs.Flat.{Holds};
ghost use Rattle.history_text.specs.declared.event.Operations.{Operations as Taken};

use crate::event::{
    AnyEvent, AnyKind, EventWord, Kind, OpWord, Operations, OtherCall, ReplyParts, Val,
};
use crate::flat_members::{FlatMembers, flat_object};
use crate::limits::MAX_NAME;
use crate::name::Name;
use crate::optional_name::OptionalName;
use std::alloc::{AllocError, Global};

/// The event of a line of the common form. `None` tells nothing of the line.
///
/// # Errors
/// Out of memory; nothing is kept.
pub(crate) fn flat_event(
    alloc: Global,
    bytes: &[u8],
    line: u32,
    operations: Operations,
) -> Result<Option<AnyEvent>, AllocError>
    requires { length bytes.now ≤ MAX_LINE }
    ensures { IfOk result (λ o. IfSome o (λ event. line_form operations line bytes.now ≡ Ok event)) }
{
    let Some(found) = flat_object(bytes, operations) else {
        return Ok(None);
    };
    let Some(process) = found.process else {
        return Ok(None);
    };
    let Some(event) = found.event else {
        return Ok(None);
    };
    let Some(kind) = kind(alloc, found, event, operations)? else {
        return Ok(None);
    };
    Ok(Some(AnyEvent {
        line,
        process,
        kind,
    }))
}

/// What happened, as the word of the event says it.
#[inline(always)]
fn kind(
    alloc: Global,
    found: FlatMembers<'_>,
    event: EventWord,
    operations: Operations,
) -> Result<Option<AnyKind>, AllocError>
    ensures { IfOk result (λ o. IfSome o (λ kind. (ms : Members) → Holds operations ms found.entry
        → kind_of operations (object ms) event ≡ Ok kind)) }
{
    if let EventWord::Call = event {
        return call(alloc, found, operations);
    }
    if let EventWord::Crash = event {
        return Ok(Some(AnyKind::Plain(Kind::Crash)));
    }
    // The only call of `parts`: a second one would cost 1 % of a run, since neither would be inlined.
    let Some(parts) = parts(alloc, found, operations)? else {
        return Ok(None);
    };
    if let EventWord::Fail = event {
        return Ok(Some(AnyKind::Plain(Kind::Fail(parts))));
    }
    Ok(Some(AnyKind::Plain(Kind::Reply(parts))))
}

/// The call of an operation on a register.
fn call(
    alloc: Global,
    found: FlatMembers<'_>,
    operations: Operations,
) -> Result<Option<AnyKind>, AllocError>
    ensures { IfOk result (λ o. IfSome o (λ kind. (ms : Members) → Holds operations ms found.entry
        → call_kind operations (object ms) ≡ Ok kind)) }
{
    let Some(op) = found.op else {
        return Ok(None);
    };
    let Some(text) = found.register else {
        return Ok(None);
    };
    if !is_name(text) {
        return Ok(None);
    }
    match op {
        OpWord::Read => {
            if let Some(Val::Int(_)) = found.value {
                return Ok(None);
            }
            Ok(Some(AnyKind::Plain(Kind::CallRead(Name::new(alloc, text)?))))
        }
        OpWord::Write => {
            let Some(Val::Int(number)) = found.value else {
                return Ok(None);
            };
            Ok(Some(AnyKind::Plain(Kind::CallWrite(Name::new(alloc, text)?, number))))
        }
        OpWord::Cas => cas(alloc, found, text),
        OpWord::Delete | OpWord::Swap => Ok(None),
    }
}

/// The call of a cas on the register of this name.
fn cas(alloc: Global, found: FlatMembers<'_>, text: &str) -> Result<Option<AnyKind>, AllocError>
    requires { IsName text.now }
    ensures { IfOk result (λ o. IfSome o (λ kind. (taken : Taken) (ms : Members)
        → Holds taken ms found.entry → cas_call (object ms) text.now ≡ Ok kind)) }
{
    if let Some(Val::Int(_)) = found.value {
        return Ok(None);
    }
    let Some(from) = found.from else {
        return Ok(None);
    };
    let Some(Val::Int(to)) = found.to else {
        return Ok(None);
    };
    Ok(Some(AnyKind::CallOther(Name::new(alloc, text)?, OtherCall::Cas(from, to))))
}

/// What a reply or a fail says of its call.
fn parts(
    alloc: Global,
    found: FlatMembers<'_>,
    operations: Operations,
) -> Result<Option<ReplyParts>, AllocError>
    ensures { IfOk result (λ o. IfSome o (λ parts. (ms : Members) → Holds operations ms found.entry
        → parts_form operations (object ms) ≡ Ok parts)) }
{
    let mut register = OptionalName::none();
    if let Some(text) = found.register {
        if !is_name(text) {
            return Ok(None);
        }
        register = OptionalName::new(alloc, text)?;
    }
    Ok(Some(ReplyParts {
        op: op(found),
        register,
        value: found.value,
        ok: ok(found, operations),
    }))
}

/// The word for the operation, if there is one: then it is taken.
#[inline(always)]
fn op(found: FlatMembers<'_>) -> Option<OpWord>
    ensures { (taken : Taken) (ms : Members) → Holds taken ms found.entry
        → optional (op_form taken) (get_member (codes "op") ms) ≡ Some result }
{
    found.op
}

/// Whether a cas took place, if cas are taken.
#[inline(always)]
fn ok(found: FlatMembers<'_>, operations: Operations) -> Option<bool>
    ensures { (ms : Members) → Holds operations ms found.entry
        → result ≡ ok_form operations (get_member (codes "ok") ms) }
{
    match operations {
        Operations::ReadsAndWrites => None,
        Operations::WithCas => found.ok,
    }
}

/// Whether the text may name a register.
#[inline(always)]
fn is_name(text: &str) -> bool
    ensures { MatchBool result (IsName text.now) ⊤ }
{
    !text.is_empty() && text.len() <= MAX_NAME
}
