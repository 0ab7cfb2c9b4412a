//! The operations of the calls, each by the next event of its process.
ghost use Rattle.std.specs.Prelude.{◌≡◌, ◌≤◌, ℕ, List, Some, length, map, IfOk, IfSome, option_map};
ghost use Rattle.std.specs.Prelude.{unwrap_or};
ghost use Rattle.history_model.specs.Calls as all;
ghost use Rattle.reg_intake.specs.CasHistory.Events.{called_by};
ghost use Rattle.reg_intake.specs.CasHistory.History as defined;
ghost use Rattle.reg_intake.specs.CasHistory.Kept.{event_at, operation_at as begun_at};

use crate::cas_history::act::{pending_act, replied_act};
use crate::cas_history::agrees::word_asked;
use crate::cas_history::said::{Asked, called, failed, replied, told};
use history_model::{Act, Operation};
use history_text::{AnyEvent, MAX_EVENTS, OpWord};
use std::alloc::{AllocError, Global};

/// The event at this place, if there is one, with its time.
pub(crate) fn next_event(events: &[AnyEvent], place: Option<u32>) -> Option<(u32, &AnyEvent)>
    requires { length events.now ≤ MAX_EVENTS }
    ensures { option_map (λ next. (next.0, next.1.now)) result ≡ event_at events.now place }
{
    let place = place?;
    let event = events.get(place as usize)?;
    Some((place + 2, event))
}

/// The operation that an event at this time begins, if it is a call that didn't fail: by the next event of
/// its process. A missing reply has the time `after_all`.
pub(crate) fn operation_at(
    after_all: u32,
    register: u32,
    time: u32,
    event: &AnyEvent,
    next: Option<(u32, &AnyEvent)>,
) -> Option<Operation>
    ensures operation { (names : List (List ℕ))
        → register ≡ defined.number_of names (called_by event.now.kind)
        → result ≡ begun_at (defined.any_calls names) after_all time event.now
        (option_map (λ next. (next.0, next.1.now)) next.entry) }
    ensures register { IfSome result (λ operation. operation.register ≡ register) }
{
    let Some((_name, asked)) = called(&event.kind) else {
        return None;
    };
    if has_failed(next) {
        return None;
    }
    let reply = reply_in(next);
    Some(Operation {
        line: event.line,
        call: time,
        reply: time_of(reply, after_all),
        completed: reply.is_some(),
        process: Some(event.process),
        register,
        act: act_of(asked, reply),
    })
}

fn has_failed(next: Option<(u32, &AnyEvent)>) -> bool
    ensures { (names : List (List ℕ)) → result
        ≡ all.has_failed (defined.any_calls names) (option_map (λ next. (next.0, next.1.now)) next.entry) }
{
    match next {
        None => false,
        Some((_, event)) => failed(&event.kind).is_some(),
    }
}

/// The next event of a process, if it is a reply.
fn reply_in(next: Option<(u32, &AnyEvent)>) -> Option<(u32, &AnyEvent)>
    ensures { (names : List (List ℕ)) → option_map (λ reply. (reply.0, reply.1.now)) result
        ≡ all.reply_in (defined.any_calls names) (option_map (λ next. (next.0, next.1.now)) next.entry) }
{
    let (time, event) = next?;
    let _reply = replied(&event.kind)?;
    Some((time, event))
}

/// The time of a reply, or else this one.
fn time_of(reply: Option<(u32, &AnyEvent)>, after_all: u32) -> u32
    ensures { result ≡ unwrap_or (option_map (λ reply. reply.0) reply.entry) after_all }
{
    match reply {
        None => after_all,
        Some((time, _)) => time,
    }
}

fn act_of(asked: Asked, reply: Option<(u32, &AnyEvent)>) -> Act
    ensures { (name : List ℕ) → result ≡ defined.act_of (Some (record { register = name; asked = asked }))
        (option_map (λ reply. reply.1.now) reply.entry) }
{
    match reply {
        None => pending_act(asked),
        Some((_, event)) => match replied(&event.kind) {
            None => pending_act(asked),
            Some(reply) => replied_act(asked, reply.value, reply.ok, told(&event.kind)),
        },
    }
}

/// The word of each event's call, if it is one.
pub(crate) fn call_words(
    alloc: Global,
    events: &[AnyEvent],
) -> Result<Vec<Option<OpWord>>, AllocError>
    ensures { IfOk result (λ words. words.items ≡ map defined.call_word events.now) }
{
    let mut words = Vec::with_capacity(alloc, events.len())?;
    for event in events {
        words.push(call_word(event))?;
    }
    Ok(words)
}

/// The word of an event's call, if it is one.
fn call_word(event: &AnyEvent) -> Option<OpWord>
    ensures { result ≡ defined.call_word event.now }
{
    let (_, asked) = called(&event.kind)?;
    Some(word_asked(asked))
}
