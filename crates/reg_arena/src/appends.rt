//! An event that isn't refused joins the history, with the name of its register if that is new.
//!
//! A step that runs out of memory halfway leaves an empty arena: an arena
//! is the history of some events at any time.
ghost use Rattle.std.specs.Prelude.{◌≡◌, ◌<◌, length, max, IfOk, OnOk, Some, true};
ghost use Rattle.history_text.specs.declared.event.LineEvent.{LineEvent as ALineEvent};
ghost use Rattle.history_text.specs.declared.event.ReplyParts.{ReplyParts as AReplyParts};
ghost use Rattle.history_text.specs.declared.limits.TheConstants.{MAX_EVENTS};
ghost use Rattle.reg_arena.specs.Lists.EventLists.{IsAlike, IsAppendable, end_of};
ghost use Rattle.history_model.specs.Events.{Asked, asked_by, failed_by, is_crash, replied_by};
ghost use Rattle.history_model.specs.History.{IsRecorded};
ghost use Rattle.reg_arena.specs.Step.{IsLastWith, IsNumber, IsStanding, IsTaken, OnOkAfter};
ghost use Rattle.reg_arena.specs.Step.{name_added, names_and, step_result, with_event};
ghost use Rattle.reg_arena.specs.declared.process_standing.Standing.TheVariants.{Opened};

use crate::arena::Arena;
use crate::process_standing::Open;
use history_model::{EvId, Event, RegId, What};
use history_text::{LineEvent, Name, OpKind, ReplyParts, Val};
use std::alloc::{AllocError, Global};

/// What a call says.
#[derive(Clone, Copy)]
pub(crate) struct CallParts<'a> {
    pub(crate) name: &'a Name,
    pub(crate) kind: OpKind,
    pub(crate) value: Option<Val>,
}

impl Arena {
    /// Appends a call that isn't refused. `last` is the last event of its register and value.
    pub(crate) fn add_call(
        &mut self,
        alloc: Global,
        event: &LineEvent,
        parts: CallParts<'_>,
        number: Option<u32>,
        last: Option<EvId>,
    ) -> Result<(), AllocError>
        requires asked { asked_by event.now.kind
            ≡ Some (record { register = parts.name.now; kind = parts.kind; value = parts.value }) }
        requires number { IsNumber self.old.names parts.name.now number }
        requires last { IsLastWith self.old.events number parts.value last }
        requires taken { IsTaken self.old event.now }
        ensures { OnOkAfter self.old event.now (step_result self.new result) }
    {
        let count = self.register_count();
        let id = EvId(self.event_count());
        let name = new_name(alloc, number, parts.name)?;
        let event = Event {
            line: event.line,
            process: event.process,
            register: Some(RegId(number.unwrap_or(count))),
            what: What::Call(parts.kind),
            value: parts.value,
        };
        self.append(&event, id, last, name)
    }

    /// Appends a reply that isn't refused.
    pub(crate) fn add_reply(
        &mut self,
        event: &LineEvent,
        parts: &ReplyParts,
        opened: Open,
    ) -> Result<(), AllocError>
        requires reply { replied_by event.now.kind ≡ Some parts.now }
        requires opened { IsStanding self.old.events event.now.process (Opened opened) }
        requires taken { IsTaken self.old event.now }
        ensures { OnOkAfter self.old event.now (step_result self.new result) }
    {
        // A write's call has the value of its reply, so that nothing is looked up.
        let (value, alike) = match opened.kind {
            OpKind::ReadOp => (parts.value, self.lists.alike(opened.register, parts.value)),
            OpKind::WriteOp => (opened.value, Some(opened.call)),
        };
        let event = Event {
            line: event.line,
            process: event.process,
            register: Some(opened.register),
            what: What::Reply(opened.kind),
            value,
        };
        self.append(&event, opened.call, alike, None)
    }

    /// Appends a fail that isn't refused.
    pub(crate) fn add_fail(&mut self, event: &LineEvent, opened: Open) -> Result<(), AllocError>
        requires fail { (parts : AReplyParts) × (failed_by event.now.kind ≡ Some parts) }
        requires opened { IsStanding self.old.events event.now.process (Opened opened) }
        requires taken { IsTaken self.old event.now }
        ensures { OnOkAfter self.old event.now (step_result self.new result) }
    {
        let event = Event {
            line: event.line,
            process: event.process,
            register: Some(opened.register),
            what: What::Fail(opened.kind),
            value: opened.value,
        };
        let alike = opened.value.and(Some(opened.call));
        self.append(&event, opened.call, alike, None)
    }

    /// Appends a crash that isn't refused.
    pub(crate) fn add_crash(&mut self, event: &LineEvent) -> Result<(), AllocError>
        requires crash { is_crash event.now ≡ true }
        requires taken { IsTaken self.old event.now }
        ensures { OnOkAfter self.old event.now (step_result self.new result) }
    {
        let id = EvId(self.event_count());
        let event = Event {
            line: event.line,
            process: event.process,
            register: None,
            what: What::Crash,
            value: None,
        };
        self.append(&event, id, None, None)
    }

    /// Appends an event with the event of its call, and the name of its register if that is new. If
    /// memory runs out halfway, the arena is empty.
    ///
    /// `alike` is an event of the same register and value, if there is one. A crash
    /// has no call, and `call` is then not read.
    fn append(
        &mut self,
        event: &Event,
        call: EvId,
        alike: Option<EvId>,
        name: Option<Name>,
    ) -> Result<(), AllocError>
        requires registers { length (names_and self.old.names name)
            ≡ max (length self.old.names) (end_of event.now.register) }
        requires room { length self.old.events < MAX_EVENTS }
        requires call { IsAppendable self.old.events event.now call }
        requires alike { IsAlike self.old.events event.now alike }
        requires recorded { IsRecorded (with_event self.old name event.now) }
        ensures { OnOk result (self.new ≡ with_event self.old name event.now) }
    {
        self.names.add(name)?;
        match self.lists.append(event, call, alike) {
            Ok(()) => Ok(()),
            Err(error) => {
                self.names.clear();
                self.lists.clear();
                Err(error)
            }
        }
    }
}

/// A copy of the name of a register that is called, if the register is new: it has no number yet.
fn new_name(alloc: Global, number: Option<u32>, name: &Name) -> Result<Option<Name>, AllocError>
    ensures { IfOk result (λ copy. copy ≡ name_added number name.now) }
{
    match number {
        Some(_) => Ok(None),
        None => Ok(Some(Name::new(alloc, name.as_str())?)),
    }
}
