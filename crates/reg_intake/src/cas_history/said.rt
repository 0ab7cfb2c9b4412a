//! What an event says: a call, a reply, a fail or a crash.
ghost use Rattle.std.specs.Prelude.{◌≡◌, option_map};
ghost use Rattle.reg_intake.specs.CasHistory.Events as defined;

use history_text::{AnyKind, CasCall, Compared, Kind, Name, OtherCall, ReplyParts, Told, Val};

/// What a call asks of its register.
#[derive(Clone, Copy, Debug, PartialEq, Eq)]
pub enum Asked {
    /// To give its value.
    Read,
    /// To hold this number.
    Write(i64),
    /// To hold a value, if the one that it holds is as the cas asks.
    Cas(CasCall),
    /// To hold no value.
    Delete,
    /// To hold this number, and to tell of the value before.
    Swap(i64),
}

/// What the call of an operation asks that is neither a read nor a write.
#[inline(always)]
fn other_asked(call: &OtherCall) -> Asked
    ensures { result ≡ defined.other_asked call.now }
{
    match call {
        OtherCall::Cas(from, number) => Asked::Cas(CasCall {
            compared: Compared::From(*from),
            to: Val::Int(*number),
            asks_old: false,
        }),
        OtherCall::CasOf(cas) => Asked::Cas(cas.get()),
        OtherCall::Delete => Asked::Delete,
        OtherCall::Swap(number) => Asked::Swap(*number),
    }
}

/// The register of a call, and what is asked of it.
#[inline(always)]
pub(crate) fn called(kind: &AnyKind) -> Option<(&Name, Asked)>
    ensures { option_map (λ call. record { register = call.0.now; asked = call.1 }) result
        ≡ defined.called_by kind.now }
{
    match kind {
        AnyKind::Plain(Kind::CallRead(name)) => Some((name, Asked::Read)),
        AnyKind::Plain(Kind::CallWrite(name, number)) => Some((name, Asked::Write(*number))),
        AnyKind::Plain(Kind::Reply(_))
        | AnyKind::Plain(Kind::Fail(_))
        | AnyKind::Plain(Kind::Crash) => None,
        AnyKind::CallOther(name, call) => Some((name, other_asked(call))),
        AnyKind::Telling(_, _) => None,
    }
}

/// What a reply says.
#[inline(always)]
pub(crate) fn replied(kind: &AnyKind) -> Option<&ReplyParts>
    ensures { option_map (λ parts. parts.now) result ≡ defined.replied_by kind.now }
{
    match kind {
        AnyKind::Plain(Kind::Reply(parts)) => Some(parts),
        AnyKind::Telling(parts, _) => Some(parts),
        _ => None,
    }
}

/// What a reply tells of the value that its operation met.
#[inline(always)]
pub(crate) fn told(kind: &AnyKind) -> Told
    ensures { result ≡ defined.told_by kind.now }
{
    match kind {
        AnyKind::Telling(_, told) => told.get(),
        _ => Told::NOTHING,
    }
}

/// What a fail says.
#[inline(always)]
pub(crate) fn failed(kind: &AnyKind) -> Option<&ReplyParts>
    ensures { option_map (λ parts. parts.now) result ≡ defined.failed_by kind.now }
{
    match kind {
        AnyKind::Plain(Kind::Fail(parts)) => Some(parts),
        _ => None,
    }
}

#[inline(always)]
pub(crate) fn is_crash(kind: &AnyKind) -> bool
    ensures { result ≡ defined.is_crash kind.now }
{
    match kind {
        AnyKind::Plain(Kind::Crash) => true,
        _ => false,
    }
}
