//! Why an event is refused: a function for each reason, and the lowest-numbered reason. Of what went before,
//! only the last event of the event's process counts, and how many events there were.
ghost use Rattle.std.specs.Prelude.{◌≡◌, [], None, Some, cond, not, option_map};
ghost use Rattle.history_model.specs.Table as table;
ghost use Rattle.history_model.specs.declared.refusal.Reason.TheVariants.{Disagreement, NoValue, NoOk};
ghost use Rattle.history_model.specs.declared.refusal.Reason.TheVariants.{BadTold};
ghost use Rattle.reg_intake.specs.CasHistory.Events.{any_form, fail_agrees as fail_suits, failed_by};
ghost use Rattle.reg_intake.specs.CasHistory.Events.{is_without_ok as lacks_ok, replied_by};
ghost use Rattle.reg_intake.specs.CasHistory.Events.{reply_agrees as suits};
ghost use Rattle.reg_intake.specs.CasHistory.Events.{told_by, told_fits as fits};
ghost use Rattle.reg_intake.specs.CasHistory.Refusals.{any_rules};

use crate::cas_history::agrees::{
    fail_agrees, is_without_ok, is_without_value, reply_agrees, told_fits,
};
use crate::cas_history::said::{Asked, called, failed, is_crash, replied, told};
use history_model::{LineRefusal, Reason};
use history_text::{AnyEvent, MAX_EVENTS, Name};

/// The refusal of an event after `count` others, of which `last` is the last of its process, if there is
/// one: for the lowest-numbered reason that applies.
pub(crate) fn event_refusal(
    count: usize,
    last: Option<&AnyEvent>,
    event: &AnyEvent,
) -> Option<LineRefusal>
    ensures { result ≡ table.refusal_after any_rules count (option_map
        (λ e. e.now) last.entry) event.now [] }
{
    let told = reply_without_ok(last, event).or(reply_tells_wrong(last, event));
    let late = too_many(count, event).or(after_crash(last, event)).or(told);
    let ended = fail_disagrees(last, event).or(reply_without_value(last, event).or(late));
    call_while_open(last, event).or(end_without_call(last, event).or(reply_disagrees(
        last, event,
    ).or(ended)))
}

/// The register of the open call, and what it asks.
#[inline(always)]
fn open_asked(last: Option<&AnyEvent>) -> Option<(&Name, Asked)>
    ensures { option_map (λ call. record { register = call.0.now; asked = call.1 }) result
        ≡ table.open_asked any_form (option_map (λ e. e.now) last.entry) }
{
    called(&last?.kind)
}

fn call_while_open(last: Option<&AnyEvent>, event: &AnyEvent) -> Option<LineRefusal>
    ensures { result ≡ table.call_while_open any_rules (option_map (λ e. e.now) last.entry) event.now }
{
    let before = last?;
    match (called(&event.kind), called(&before.kind)) {
        (Some(_), Some(_)) => Some(refusal(event, Reason::OpenCall(before.line))),
        _ => None,
    }
}

fn end_without_call(last: Option<&AnyEvent>, event: &AnyEvent) -> Option<LineRefusal>
    ensures { result ≡ table.end_without_call any_rules (option_map (λ e. e.now) last.entry) event.now }
{
    if replied(&event.kind).is_none() && failed(&event.kind).is_none() {
        return None;
    }
    match last {
        None => Some(refusal(event, Reason::NoOpenCall)),
        Some(before) => {
            let is_closed = called(&before.kind).is_none() && !is_crash(&before.kind);
            refused_if(is_closed, event, Reason::NoOpenCall)
        }
    }
}

fn reply_disagrees(last: Option<&AnyEvent>, event: &AnyEvent) -> Option<LineRefusal>
    ensures { result ≡ table.failing any_rules (λ call reply. not (suits call reply)) Disagreement
        (option_map (λ e. e.now) last.entry) event.now (replied_by event.now.kind) }
{
    let reply = replied(&event.kind)?;
    let (register, asked) = open_asked(last)?;
    refused_if(
        !reply_agrees(register, asked, reply),
        event,
        Reason::Disagreement,
    )
}

fn fail_disagrees(last: Option<&AnyEvent>, event: &AnyEvent) -> Option<LineRefusal>
    ensures { result ≡ table.failing any_rules (λ call fail. not (fail_suits call fail)) Disagreement
        (option_map (λ e. e.now) last.entry) event.now (failed_by event.now.kind) }
{
    let fail = failed(&event.kind)?;
    let (register, asked) = open_asked(last)?;
    refused_if(
        !fail_agrees(register, asked, fail),
        event,
        Reason::Disagreement,
    )
}

fn reply_without_value(last: Option<&AnyEvent>, event: &AnyEvent) -> Option<LineRefusal>
    ensures { result ≡ table.failing any_rules (any_rules.is_without_value event.now) NoValue
        (option_map (λ e. e.now) last.entry) event.now (replied_by event.now.kind) }
{
    let reply = replied(&event.kind)?;
    let (_, asked) = open_asked(last)?;
    let applies = is_without_value(asked, reply.value, told(&event.kind));
    refused_if(applies, event, Reason::NoValue)
}

fn too_many(count: usize, event: &AnyEvent) -> Option<LineRefusal>
    ensures { result ≡ table.too_many any_rules count event.now }
{
    refused_if(count >= MAX_EVENTS, event, Reason::TooMany)
}

fn after_crash(last: Option<&AnyEvent>, event: &AnyEvent) -> Option<LineRefusal>
    ensures { result ≡ table.after_crash any_rules (option_map (λ e. e.now) last.entry) event.now }
{
    let before = last?;
    refused_if(
        is_crash(&before.kind),
        event,
        Reason::AfterCrash(before.line),
    )
}

fn reply_without_ok(last: Option<&AnyEvent>, event: &AnyEvent) -> Option<LineRefusal>
    ensures { result ≡ table.failing any_rules (λ call reply. lacks_ok call.asked reply.ok) NoOk
        (option_map (λ e. e.now) last.entry) event.now (replied_by event.now.kind) }
{
    let reply = replied(&event.kind)?;
    let (_, asked) = open_asked(last)?;
    refused_if(is_without_ok(asked, reply.ok), event, Reason::NoOk)
}

fn reply_tells_wrong(last: Option<&AnyEvent>, event: &AnyEvent) -> Option<LineRefusal>
    ensures { result ≡ table.failing any_rules
        (λ call reply. not (fits call.asked reply (told_by event.now.kind))) BadTold
        (option_map (λ e. e.now) last.entry) event.now (replied_by event.now.kind) }
{
    let reply = replied(&event.kind)?;
    let (_, asked) = open_asked(last)?;
    refused_if(
        !told_fits(asked, reply, told(&event.kind)),
        event,
        Reason::BadTold,
    )
}

/// The refusal of the event for a reason, if that applies.
fn refused_if(applies: bool, event: &AnyEvent, reason: Reason) -> Option<LineRefusal>
    ensures { result ≡ cond applies (Some (table.refused any_rules event.now reason)) None }
{
    if applies {
        Some(refusal(event, reason))
    } else {
        None
    }
}

fn refusal(event: &AnyEvent, reason: Reason) -> LineRefusal
    ensures { result ≡ table.refused any_rules event.now reason }
{
    let line = event.line;
    LineRefusal { line, reason }
}
