//! Whether the end of a call agrees with the call.
ghost use Rattle.std.specs.Prelude.{◌≡◌, bytes_eq};
ghost use Rattle.history_text.specs.Values.{word_eq};
ghost use Rattle.history_model.specs.Events.{agrees};
ghost use Rattle.reg_intake.specs.CasHistory.Events as defined;

use crate::cas_history::said::Asked;
use history_text::{Compared, Name, OpWord, OptionalName, ReplyParts, Told, Val};

/// Whether a reply agrees with its call.
pub(crate) fn reply_agrees(register: &Name, asked: Asked, reply: &ReplyParts) -> bool
    ensures { result ≡ defined.reply_agrees (record { register = register.now; asked = asked }) reply.now }
{
    op_agrees(reply.op, asked)
        && register_agrees(&reply.register, register)
        && value_agrees(asked, reply.value)
}

/// Whether a fail agrees with its call.
pub(crate) fn fail_agrees(register: &Name, asked: Asked, fail: &ReplyParts) -> bool
    ensures { result ≡ defined.fail_agrees (record { register = register.now; asked = asked }) fail.now }
{
    op_agrees(fail.op, asked)
        && register_agrees(&fail.register, register)
        && failed_value_agrees(asked, fail.value)
}

/// Whether the value of a reply is one that such a call may get.
fn value_agrees(asked: Asked, value: Option<Val>) -> bool
    ensures { result ≡ defined.value_agrees asked value }
{
    match asked {
        Asked::Read => true,
        Asked::Write(_) | Asked::Cas(_) | Asked::Delete | Asked::Swap(_) => {
            failed_value_agrees(asked, value)
        }
    }
}

/// The same of a fail.
fn failed_value_agrees(asked: Asked, value: Option<Val>) -> bool
    ensures { result ≡ defined.failed_value_agrees asked value }
{
    match value {
        None | Some(Val::Null) => true,
        Some(Val::Int(said)) => match asked {
            Asked::Write(number) => said == number,
            Asked::Swap(number) => said == number,
            Asked::Read | Asked::Cas(_) | Asked::Delete => false,
        },
    }
}

/// Whether it is a read's reply that gives no value, and doesn't say whether there was one.
pub(crate) fn is_without_value(asked: Asked, value: Option<Val>, told: Told) -> bool
    ensures { result ≡ defined.is_without_value asked value told }
{
    match (asked, value) {
        (Asked::Read, None) => matches!(told.found, Some(None)),
        _ => false,
    }
}

/// Whether it is a cas's reply that doesn't say whether the cas took place.
pub(crate) fn is_without_ok(asked: Asked, ok: Option<bool>) -> bool
    ensures { result ≡ defined.is_without_ok asked ok }
{
    match asked {
        Asked::Read | Asked::Write(_) | Asked::Delete | Asked::Swap(_) => false,
        Asked::Cas(_) => ok.is_none(),
    }
}

/// Whether what a reply tells of the value that its operation met fits the call, as far as it counts.
pub(crate) fn told_fits(asked: Asked, reply: &ReplyParts, told: Told) -> bool
    ensures { result ≡ defined.told_fits asked reply.now told }
{
    match asked {
        Asked::Read => reply.value.is_some() || told.found.is_some(),
        Asked::Write(_) => true,
        Asked::Cas(cas) => !cas.asks_old || old_agrees(cas.compared, reply.ok, told.old),
        Asked::Delete => told_agrees(told),
        Asked::Swap(_) => told_agrees(told) && !told.is_nothing(),
    }
}

/// Whether `found` and `old` have their forms, and agree.
fn told_agrees(told: Told) -> bool
    ensures { result ≡ defined.told_agrees told.found told.old }
{
    match (told.found, told.old) {
        (Some(Some(found)), Some(Some(old))) => found == is_there(old),
        (Some(_), Some(_)) => true,
        _ => false,
    }
}

/// Whether the old value has its form, and the cas took place exactly if it is as asked.
fn old_agrees(compared: Compared, ok: Option<bool>, old: Option<Option<Val>>) -> bool
    ensures { result ≡ defined.old_agrees compared ok old }
{
    match (ok, old) {
        (_, None) => false,
        (Some(ok), Some(Some(old))) => ok == is_as_asked(compared, old),
        (_, Some(_)) => true,
    }
}

fn is_as_asked(compared: Compared, value: Val) -> bool
    ensures { result ≡ defined.is_as_asked compared value }
{
    match compared {
        Compared::From(from) => value == from,
        Compared::Unless(unless) => value != unless,
    }
}

fn is_there(value: Val) -> bool
    ensures { result ≡ defined.is_there value }
{
    match value {
        Val::Null => false,
        Val::Int(_) => true,
    }
}

fn op_agrees(said: Option<OpWord>, asked: Asked) -> bool
    ensures { result ≡ agrees word_eq said (defined.word_asked asked) }
{
    match said {
        None => true,
        Some(word) => word == word_asked(asked),
    }
}

fn register_agrees(said: &OptionalName, register: &Name) -> bool
    ensures { result ≡ agrees bytes_eq said.now register.now }
{
    match said.get() {
        None => true,
        Some(name) => name == register,
    }
}

/// The word for what a call asks.
pub(crate) fn word_asked(asked: Asked) -> OpWord
    ensures { result ≡ defined.word_asked asked }
{
    match asked {
        Asked::Read => OpWord::Read,
        Asked::Write(_) => OpWord::Write,
        Asked::Cas(_) => OpWord::Cas,
        Asked::Delete => OpWord::Delete,
        Asked::Swap(_) => OpWord::Swap,
    }
}
