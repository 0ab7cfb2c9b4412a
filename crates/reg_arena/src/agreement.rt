//! Whether a reply or a fail agrees with its call.
ghost use Rattle.std.specs.Prelude.{◌≡◌, ◌<◌, ℕ, List, Some, bytes_eq, length, slice_get};
ghost use Rattle.history_text.specs.Values.{word_eq, word_of};
ghost use Rattle.history_model.specs.Events.{agrees, fail_agrees, failed_value_agrees};
ghost use Rattle.history_model.specs.Events.{reply_agrees, value_agrees};

use crate::names::Names;
use crate::process_standing::Open;
use history_model::RegId;
use history_text::{OpKind, OpWord, ReplyParts, Val};

/// Whether each thing that a reply says is as in its call.
pub(crate) fn reply_agrees(parts: &ReplyParts, names: &Names, opened: Open) -> bool
    requires { opened.register.0 < length names.now }
    ensures { (name : List ℕ) → slice_get names.now opened.register.0 ≡ Some name
        → result ≡ reply_agrees (record { register = name; kind = opened.kind; value = opened.value })
        parts.now }
{
    op_agrees(parts.op, opened.kind)
        && register_agrees(parts, names, opened.register)
        && value_agrees(opened.value, parts.value)
}

/// The same of a fail.
pub(crate) fn fail_agrees(parts: &ReplyParts, names: &Names, opened: Open) -> bool
    requires { opened.register.0 < length names.now }
    ensures { (name : List ℕ) → slice_get names.now opened.register.0 ≡ Some name
        → result ≡ fail_agrees (record { register = name; kind = opened.kind; value = opened.value })
        parts.now }
{
    op_agrees(parts.op, opened.kind)
        && register_agrees(parts, names, opened.register)
        && failed_value_agrees(opened.value, parts.value)
}

fn op_agrees(said: Option<OpWord>, kind: OpKind) -> bool
    ensures { result ≡ agrees word_eq said (word_of kind) }
{
    let word = kind.word();
    said.is_none_or(|said| said == word)
}

/// Whether a reply or a fail names no register, or that of its call. The register's name may lie far
/// off, so it is read only if one is named.
fn register_agrees(parts: &ReplyParts, names: &Names, register: RegId) -> bool
    requires { register.0 < length names.now }
    ensures { (name : List ℕ) → slice_get names.now register.0 ≡ Some name
        → result ≡ agrees bytes_eq parts.now.register name }
{
    parts
        .register
        .get()
        .is_none_or(|said| said.as_str() == names.get(register.0))
}

fn value_agrees(written: Option<Val>, said: Option<Val>) -> bool
    ensures { result ≡ value_agrees written said }
{
    match (written, said) {
        (Some(written), Some(Val::Int(said))) => Val::Int(said) == written,
        _ => true,
    }
}

fn failed_value_agrees(written: Option<Val>, said: Option<Val>) -> bool
    ensures { result ≡ failed_value_agrees written said }
{
    match (written, said) {
        (None, Some(Val::Int(_))) => false,
        _ => value_agrees(written, said),
    }
}
