//! The members of a flat object, one after another, read from its text with no tree.
//!
//! An object is flat here if it has one to eleven members, in any order: `process`, `event`, `op`, `register`
//! and `value`; `from`, `to` and `ok`, where cas are taken; and `client`, `node` and `time`, which are passed
//! over. Each has a plain value of that member: a number, a word, a string or null. Spaces may stand wherever
//! JSON allows them, except before a colon: hardly any writer puts them there, and looking for them would
//! cost time on every line. As in `members`, the last of equal names counts.
//!
//! Each function gives what it read and the text after it. `None` tells nothing of the text.
ghost use Rattle.std.specs.Prelude.{◌≡◌, ◌≤◌, true, IfSome};
ghost use Rattle.serde_json.specs.Data.{boolean, string};
ghost use Rattle.history_text.specs.Limits.{MAX_PROCESS};
ghost use Rattle.history_text.specs.Members.{takes};
ghost use Rattle.history_text.specs.Flat.{Scalar, Named, Adds, Passes, IsFlat};
ghost use Rattle.history_text.specs.Flat.{whole_data, event_data, op_data, value_data};
ghost use Rattle.history_text.specs.declared.event.Operations.TheVariants.{WithCas};

use crate::event::{EventWord, OpWord, Operations, Val};
use crate::scan::{after, next_byte, plain_string, signed, skip_spaces, unsigned};

/// What was found of the members, each as it is read. What is absent is `None`.
#[derive(Clone, Copy, Drop)]
pub(crate) struct FlatMembers<'a> {
    pub(crate) process: Option<u32>,
    pub(crate) event: Option<EventWord>,
    pub(crate) op: Option<OpWord>,
    pub(crate) register: Option<&'a str>,
    pub(crate) value: Option<Val>,
    pub(crate) from: Option<Val>,
    pub(crate) to: Option<Val>,
    pub(crate) ok: Option<bool>,
}

const NOTHING: FlatMembers<'static> = FlatMembers {
    process: None,
    event: None,
    op: None,
    register: None,
    value: None,
    from: None,
    to: None,
    ok: None,
};

// One for each of these names.
const MOST_MEMBERS: usize = 11;

/// The process, a whole number within its limit.
#[inline(always)]
fn process(text: &[u8]) -> Option<(u32, &[u8])>
    ensures text { IfSome result (λ r. Scalar text.now (whole_data r.0) r.1.now) }
    ensures limit { IfSome result (λ r. r.0 ≤ MAX_PROCESS) }
{
    let (number, rest) = unsigned(text)?;
    if number > u32::MAX as u64 {
        return None;
    }
    Some((number as u32, rest))
}

/// The word of the event. Calls and replies are looked for first: most lines are one or the other.
#[inline(always)]
fn event(text: &[u8]) -> Option<(EventWord, &[u8])>
    ensures { IfSome result (λ r. Scalar text.now (event_data r.0) r.1.now) }
{
    if let Some(rest) = after(text, b"\"call\"") {
        return Some((EventWord::Call, rest));
    }
    if let Some(rest) = after(text, b"\"reply\"") {
        return Some((EventWord::Reply, rest));
    }
    if let Some(rest) = after(text, b"\"fail\"") {
        return Some((EventWord::Fail, rest));
    }
    let rest = after(text, b"\"crash\"")?;
    Some((EventWord::Crash, rest))
}

/// The word for an operation that is taken.
#[inline(always)]
fn op(text: &[u8], operations: Operations) -> Option<(OpWord, &[u8])>
    ensures text { IfSome result (λ r. Scalar text.now (op_data r.0) r.1.now) }
    ensures takes { IfSome result (λ r. takes operations r.0 ≡ true) }
{
    if let Some(rest) = after(text, b"\"read\"") {
        return Some((OpWord::Read, rest));
    }
    if let Some(rest) = after(text, b"\"write\"") {
        return Some((OpWord::Write, rest));
    }
    match operations {
        Operations::ReadsAndWrites => None,
        Operations::WithCas => {
            let rest = after(text, b"\"cas\"")?;
            Some((OpWord::Cas, rest))
        }
    }
}

/// A text: the name of the register, whose length is not judged here, or of a client or a node.
#[inline(always)]
fn name(text: &[u8]) -> Option<(&str, &[u8])>
    ensures { IfSome result (λ r. Scalar text.now (string r.0.now) r.1.now) }
{
    plain_string(text)
}

/// The value, null or a whole number.
#[inline(always)]
fn value(text: &[u8]) -> Option<(Val, &[u8])>
    ensures { IfSome result (λ r. Scalar text.now (value_data r.0) r.1.now) }
{
    if let Some(rest) = after(text, b"null") {
        return Some((Val::Null, rest));
    }
    let (number, rest) = signed(text)?;
    Some((Val::Int(number), rest))
}

/// Whether a cas took place.
#[inline(always)]
fn ok(text: &[u8]) -> Option<(bool, &[u8])>
    ensures { IfSome result (λ r. Scalar text.now (boolean r.0) r.1.now) }
{
    if let Some(rest) = after(text, b"true") {
        return Some((true, rest));
    }
    let rest = after(text, b"false")?;
    Some((false, rest))
}

/// The text of a member's value, if `name` is the member's name, in its quotes and with its colon.
#[inline(always)]
fn named<'a>(text: &'a [u8], name: &[u8]) -> Option<&'a [u8]>
    ensures { IfSome result (λ rest. Named name.now text.now rest.now) }
{
    let behind = after(text, name)?;
    Some(skip_spaces(behind))
}

/// A moment, a whole number.
#[inline(always)]
fn time(text: &[u8]) -> Option<(u64, &[u8])>
    ensures { IfSome result (λ r. Scalar text.now (whole_data r.0) r.1.now) }
{
    unsigned(text)
}

/// The text after a member that says who called or when, and nothing of what happened.
fn passed(text: &[u8], operations: Operations) -> Option<&[u8]>
    ensures { IfSome result (λ rest. Passes operations text.now rest.now) }
{
    if let Some(behind) = named(text, b"\"client\":") {
        let (_client, rest) = name(behind)?;
        return Some(rest);
    }
    if let Some(behind) = named(text, b"\"node\":") {
        let (_node, rest) = name(behind)?;
        return Some(rest);
    }
    let behind = named(text, b"\"time\":")?;
    let (_time, rest) = time(behind)?;
    Some(rest)
}

/// One more member that only a cas has.
fn cas_member<'a>(text: &'a [u8], found: FlatMembers<'a>) -> Option<(FlatMembers<'a>, &'a [u8])>
    ensures { IfSome result (λ r. Adds WithCas text.now found.entry r.0 r.1.now) }
{
    let mut found = found;
    if let Some(behind) = named(text, b"\"ok\":") {
        let (ok, rest) = ok(behind)?;
        found.ok = Some(ok);
        return Some((found, rest));
    }
    if let Some(behind) = named(text, b"\"from\":") {
        let (from, rest) = value(behind)?;
        found.from = Some(from);
        return Some((found, rest));
    }
    if let Some(behind) = named(text, b"\"to\":") {
        let (to, rest) = value(behind)?;
        found.to = Some(to);
        return Some((found, rest));
    }
    let rest = passed(text, Operations::WithCas)?;
    Some((found, rest))
}

/// One more member; it replaces an earlier one of the same name.
#[inline(always)]
fn member<'a>(
    text: &'a [u8],
    found: FlatMembers<'a>,
    operations: Operations,
) -> Option<(FlatMembers<'a>, &'a [u8])>
    ensures { IfSome result (λ r. Adds operations text.now found.entry r.0 r.1.now) }
{
    let mut found = found;
    if let Some(behind) = named(text, b"\"process\":") {
        let (process, rest) = process(behind)?;
        found.process = Some(process);
        return Some((found, rest));
    }
    if let Some(behind) = named(text, b"\"event\":") {
        let (event, rest) = event(behind)?;
        found.event = Some(event);
        return Some((found, rest));
    }
    if let Some(behind) = named(text, b"\"op\":") {
        let (op, rest) = op(behind, operations)?;
        found.op = Some(op);
        return Some((found, rest));
    }
    if let Some(behind) = named(text, b"\"register\":") {
        let (register, rest) = name(behind)?;
        found.register = Some(register);
        return Some((found, rest));
    }
    if let Some(behind) = named(text, b"\"value\":") {
        let (value, rest) = value(behind)?;
        found.value = Some(value);
        return Some((found, rest));
    }
    match operations {
        Operations::ReadsAndWrites => {
            let rest = passed(text, operations)?;
            Some((found, rest))
        }
        Operations::WithCas => cas_member(text, found),
    }
}

/// The members, if the text is one flat object with nothing but spaces around it.
#[inline(always)]
pub(crate) fn flat_object(text: &[u8], operations: Operations) -> Option<FlatMembers<'_>>
    ensures { IfSome result (λ found. IsFlat operations text.now found) }
{
    let mut rest = skip_spaces(after(skip_spaces(text), b"{")?);
    let mut found = NOTHING;
    for _ in 0..MOST_MEMBERS {
        let (more, next) = member(rest, found, operations)?;
        found = more;
        let (mark, behind) = next_byte(skip_spaces(next))?;
        if mark == b'}' {
            if !skip_spaces(behind).is_empty() {
                return None;
            }
            return Some(found);
        }
        if mark != b',' {
            return None;
        }
        rest = skip_spaces(behind);
    }
    None
}
