//! What an operation did to its register, by what its call asks and what its reply says.
ghost use Rattle.std.specs.Prelude.{◌≡◌};
ghost use Rattle.reg_intake.specs.CasHistory.Told as defined;

use crate::cas_history::said::Asked;
use history_model::Act;
use history_text::{CasCall, Compared, Told, Val};

/// What is known of the value that an operation met.
#[derive(Clone, Copy, Debug, PartialEq, Eq)]
pub(crate) enum Met {
    /// Nothing.
    Any,
    /// It was this one.
    Is(Val),
    /// It was another one than this.
    IsNot(Val),
}

/// What a call without a reply does, if it takes effect.
pub(crate) fn pending_act(asked: Asked) -> Act
    ensures { result ≡ defined.pending_act asked }
{
    act(asked_of(asked), written(asked))
}

/// What a call did by its reply, which says this value and this `ok`, and tells this.
pub(crate) fn replied_act(asked: Asked, value: Option<Val>, ok: Option<bool>, told: Told) -> Act
    ensures { result ≡ defined.replied_act asked value ok told }
{
    let met = met_by(asked, value, ok, told);
    if changed_nothing(asked, ok, met) {
        act(met, None)
    } else {
        act(met, written(asked))
    }
}

/// What an operation does that met such a value, and wrote this one.
fn act(met: Met, written: Option<Val>) -> Act
    ensures { result ≡ defined.act_by met written }
{
    match (met, written) {
        (Met::Any, None) => Act::Read(None),
        (Met::Any, Some(to)) => Act::Write(to),
        (Met::Is(value), None) => Act::Read(Some(value)),
        (Met::Is(from), Some(to)) => Act::Cas { from, to },
        (Met::IsNot(from), None) => Act::Miss { from },
        (Met::IsNot(unless), Some(to)) => Act::CasUnless { unless, to },
    }
}

/// The value that an operation writes if it changes anything.
fn written(asked: Asked) -> Option<Val>
    ensures { result ≡ defined.written_by asked }
{
    match asked {
        Asked::Read => None,
        Asked::Write(number) => Some(Val::Int(number)),
        Asked::Swap(number) => Some(Val::Int(number)),
        Asked::Cas(cas) => Some(cas.to),
        Asked::Delete => Some(Val::Null),
    }
}

/// The value that an operation meets if it takes effect.
fn asked_of(asked: Asked) -> Met
    ensures { result ≡ defined.asked_of asked }
{
    match asked {
        Asked::Cas(cas) => as_compared(cas.compared),
        Asked::Read | Asked::Write(_) | Asked::Delete | Asked::Swap(_) => Met::Any,
    }
}

/// The value that an operation met, by its reply.
fn met_by(asked: Asked, value: Option<Val>, ok: Option<bool>, told: Told) -> Met
    ensures { result ≡ defined.met_by asked value ok told }
{
    match asked {
        Asked::Read => match value {
            Some(value) => Met::Is(value),
            None => by_found(told.found),
        },
        Asked::Write(_) => Met::Any,
        Asked::Cas(cas) => met_by_cas(cas, ok, told),
        Asked::Delete | Asked::Swap(_) => match told.old {
            Some(Some(old)) => Met::Is(old),
            _ => by_found(told.found),
        },
    }
}

/// The value that a cas met: the old one, if it asked for it, or else as `ok` says.
fn met_by_cas(cas: CasCall, ok: Option<bool>, told: Told) -> Met
    ensures { result ≡ defined.met_by_cas cas ok told }
{
    match (cas.asks_old, told.old) {
        (true, Some(Some(old))) => Met::Is(old),
        _ => by_ok(cas.compared, ok),
    }
}

/// Of an accepted event `ok` is `true` or `false`.
fn by_ok(compared: Compared, ok: Option<bool>) -> Met
    ensures { result ≡ defined.by_ok compared ok }
{
    match ok {
        Some(false) => not_as_compared(compared),
        Some(true) | None => as_compared(compared),
    }
}

fn as_compared(compared: Compared) -> Met
    ensures { result ≡ defined.as_compared compared }
{
    match compared {
        Compared::From(from) => Met::Is(from),
        Compared::Unless(unless) => Met::IsNot(unless),
    }
}

fn not_as_compared(compared: Compared) -> Met
    ensures { result ≡ defined.not_as_compared compared }
{
    match compared {
        Compared::From(from) => Met::IsNot(from),
        Compared::Unless(unless) => Met::Is(unless),
    }
}

fn by_found(found: Option<Option<bool>>) -> Met
    ensures { result ≡ defined.by_found found }
{
    match found {
        Some(Some(true)) => Met::IsNot(Val::Null),
        Some(Some(false)) => Met::Is(Val::Null),
        _ => Met::Any,
    }
}

/// Whether a reply says that its operation changed nothing: a cas missed, or a delete found nothing.
fn changed_nothing(asked: Asked, ok: Option<bool>, met: Met) -> bool
    ensures { result ≡ defined.changed_nothing asked ok met }
{
    match asked {
        Asked::Cas(_) => matches!(ok, Some(false)),
        Asked::Delete => matches!(met, Met::Is(Val::Null)),
        Asked::Read | Asked::Write(_) | Asked::Swap(_) => false,
    }
}
