//! The members of the JSON object of a line, each by itself. The outer
//! `None` stands for a member of another form.
ghost use Rattle.std.specs.Prelude.{◌≡◌, option_map, codes, Some};
ghost use Rattle.serde_json.specs.View.{view};
ghost use Rattle.serde_json.specs.Find.{get};
ghost use Rattle.history_text.specs.Members.{process_form, event_form, other_word as other_word_form};
ghost use Rattle.history_text.specs.Members.{word_form, takes as takes_of, op_form, name_form, written_form};
ghost use Rattle.history_text.specs.Members.{value_form, has_no_value, ok_form, optional, is_true};
ghost use Rattle.history_text.specs.Members.{compared_form, found_form, told_form, other_op as other_op_form};

use crate::event::{Compared, EventWord, OpWord, Operations, Told, Val};
use crate::limits::MAX_NAME;
use serde_json::Value;

pub(crate) fn process(object: &Value) -> Option<u32>
    ensures { result ≡ process_form (get (codes "process") (view object.now)) }
{
    let number = object.get("process").and_then(Value::as_u64)?;
    u32::try_from(number).ok()
}

/// The word of the event.
pub(crate) fn event(object: &Value) -> Option<EventWord>
    ensures { result ≡ event_form (get (codes "event") (view object.now)) }
{
    let word = object.get("event").and_then(Value::as_str)?;
    if word == "call" {
        Some(EventWord::Call)
    } else if word == "reply" {
        Some(EventWord::Reply)
    } else {
        other_word(word)
    }
}

/// The word of an event that is neither a call nor a reply.
fn other_word(word: &str) -> Option<EventWord>
    ensures { result ≡ other_word_form word.now }
{
    if word == "fail" {
        Some(EventWord::Fail)
    } else if word == "crash" {
        Some(EventWord::Crash)
    } else {
        None
    }
}

/// The word for an operation.
fn word(member: &Value) -> Option<OpWord>
    ensures { result ≡ word_form (Some (view member.now)) }
{
    let word = member.as_str()?;
    if word == "read" {
        Some(OpWord::Read)
    } else if word == "write" {
        Some(OpWord::Write)
    } else {
        other_op(word)
    }
}

/// The word for an operation that is neither a read nor a write.
fn other_op(word: &str) -> Option<OpWord>
    ensures { result ≡ other_op_form word.now }
{
    if word == "cas" {
        Some(OpWord::Cas)
    } else if word == "delete" {
        Some(OpWord::Delete)
    } else if word == "swap" {
        Some(OpWord::Swap)
    } else {
        None
    }
}

/// Whether operations of this word are taken.
fn takes(operations: Operations, word: OpWord) -> bool
    ensures { result ≡ takes_of operations word }
{
    match (operations, word) {
        (Operations::ReadsAndWrites, OpWord::Cas) => false,
        (Operations::ReadsAndWrites, OpWord::Delete | OpWord::Swap) => false,
        _ => true,
    }
}

fn op(member: &Value, operations: Operations) -> Option<OpWord>
    ensures { result ≡ op_form operations (Some (view member.now)) }
{
    let word = word(member)?;
    if takes(operations, word) {
        Some(word)
    } else {
        None
    }
}

pub(crate) fn call_op(object: &Value, operations: Operations) -> Option<OpWord>
    ensures { result ≡ op_form operations (get (codes "op") (view object.now)) }
{
    op(object.get("op")?, operations)
}

pub(crate) fn reply_op(object: &Value, operations: Operations) -> Option<Option<OpWord>>
    ensures { result ≡ optional (op_form operations) (get (codes "op") (view object.now)) }
{
    match object.get("op") {
        None => Some(None),
        Some(member) => Some(Some(op(member, operations)?)),
    }
}

fn name(member: &Value) -> Option<&str>
    ensures { option_map (λ s. s.now) result ≡ name_form (Some (view member.now)) }
{
    let text = member.as_str()?;
    if text.is_empty() || text.len() > MAX_NAME {
        return None;
    }
    Some(text)
}

pub(crate) fn call_register(object: &Value) -> Option<&str>
    ensures { option_map (λ s. s.now) result ≡ name_form (get (codes "register") (view object.now)) }
{
    name(object.get("register")?)
}

pub(crate) fn reply_register(object: &Value) -> Option<Option<&str>>
    ensures { option_map (option_map (λ s. s.now)) result
        ≡ optional name_form (get (codes "register") (view object.now)) }
{
    match object.get("register") {
        None => Some(None),
        Some(member) => Some(Some(name(member)?)),
    }
}

pub(crate) fn written(object: &Value) -> Option<i64>
    ensures { result ≡ written_form (get (codes "value") (view object.now)) }
{
    object.get("value")?.as_i64()
}

/// The value that a cas writes.
pub(crate) fn to(object: &Value) -> Option<Val>
    ensures { result ≡ value_form (get (codes "to") (view object.now)) }
{
    value(object.get("to")?)
}

/// What a cas asks of the value that its register holds.
pub(crate) fn compared(object: &Value) -> Option<Compared>
    ensures { result
        ≡ compared_form (get (codes "from") (view object.now)) (get (codes "unless") (view object.now)) }
{
    match (object.get("from"), object.get("unless")) {
        (Some(member), None) => Some(Compared::From(value(member)?)),
        (None, Some(member)) => Some(Compared::Unless(value(member)?)),
        _ => None,
    }
}

/// Whether a cas asks for the old value.
pub(crate) fn asks_old(object: &Value) -> bool
    ensures { result ≡ is_true (get (codes "old") (view object.now)) }
{
    match object.get("old") {
        None => false,
        Some(member) => matches!(member.as_bool(), Some(true)),
    }
}

/// Whether the value is absent or null.
pub(crate) fn names_no_value(object: &Value) -> bool
    ensures { result ≡ has_no_value (get (codes "value") (view object.now)) }
{
    match object.get("value") {
        None => true,
        Some(member) => member.is_null(),
    }
}

fn value(member: &Value) -> Option<Val>
    ensures { result ≡ value_form (Some (view member.now)) }
{
    match member {
        Value::Null => Some(Val::Null),
        _ => Some(Val::Int(member.as_i64()?)),
    }
}

pub(crate) fn reply_value(object: &Value) -> Option<Option<Val>>
    ensures { result ≡ optional value_form (get (codes "value") (view object.now)) }
{
    match object.get("value") {
        None => Some(None),
        Some(member) => Some(Some(value(member)?)),
    }
}

fn found(object: &Value) -> Option<Option<bool>>
    ensures { result ≡ optional found_form (get (codes "found") (view object.now)) }
{
    match object.get("found") {
        None => Some(None),
        Some(member) => Some(Some(member.as_bool()?)),
    }
}

fn old(object: &Value) -> Option<Option<Val>>
    ensures { result ≡ optional value_form (get (codes "old") (view object.now)) }
{
    match object.get("old") {
        None => Some(None),
        Some(member) => Some(Some(value(member)?)),
    }
}

/// What a reply tells of the value that its operation met.
pub(crate) fn told(object: &Value, operations: Operations) -> Told
    ensures { result ≡ told_form operations (get (codes "found") (view object.now))
        (get (codes "old") (view object.now)) }
{
    match operations {
        Operations::ReadsAndWrites => Told::NOTHING,
        Operations::WithCas => Told {
            found: found(object),
            old: old(object),
        },
    }
}

/// Whether a cas took place, if its reply says so.
pub(crate) fn ok(object: &Value, operations: Operations) -> Option<bool>
    ensures { result ≡ ok_form operations (get (codes "ok") (view object.now)) }
{
    match operations {
        Operations::ReadsAndWrites => None,
        Operations::WithCas => object.get("ok")?.as_bool(),
    }
}
