//! Why an event is refused, by how its process stands and by what the history has of its register and value.
ghost use Rattle.std.specs.Prelude.{◌≡◌, ℕ, List, Option, OnOk, length, cond};
ghost use Rattle.std.specs.Prelude.{nat_le, IfOk, IfErr, Some, None};
ghost use Rattle.history_text.specs.declared.event.LineEvent.{LineEvent as ALineEvent};
ghost use Rattle.history_text.specs.declared.event.ReplyParts.{ReplyParts as AReplyParts};
ghost use Rattle.history_text.specs.declared.event.Val.{Val as AVal};
ghost use Rattle.history_model.specs.Events.{Asked, asked_by, ended_by, failed_by, replied_by};
ghost use Rattle.history_model.specs.History.{IsRecorded, history_of};
ghost use Rattle.history_model.specs.declared.refusal.Reason.TheVariants.{TooMany};
ghost use Rattle.history_model.specs.Refusals.{AreAccepted, event_refusal, late_refusal};
ghost use Rattle.reg_arena.specs.Step.{IsLastWith, IsNumber, IsStanding, IsStopped, IsTaken, IsWritten};
ghost use Rattle.reg_arena.specs.declared.process_standing.Standing.TheVariants.{Crashed, Opened};

use crate::agreement::{fail_agrees, reply_agrees};
use crate::arena::Arena;
use crate::process_standing::{Open, Standing};
use history_model::{BuildError, EvId, LineRefusal, Reason};
use history_text::{LineEvent, MAX_EVENTS, ReplyParts};

/// The refusal of a line.
pub(crate) fn refused(line: u32, reason: Reason) -> LineRefusal
    ensures { result ≡ record { line = line; reason = reason } }
{
    LineRefusal { line, reason }
}

impl Arena {
    /// An arena is the history of some events at any time.
    pub(crate) fn stays_recorded(&self)
        ensures { IsRecorded self.now }
    {
        // The arena's invariant is known once a field is used.
        let _ = &self.names;
    }

    /// The refusal of an event, if there is one, as the error.
    pub(crate) fn accept(
        &self,
        event: &LineEvent,
        refusal: Option<LineRefusal>,
    ) -> Result<(), BuildError>
        requires { (es : List ALineEvent) → AreAccepted es → self.now ≡ history_of es
            → refusal ≡ event_refusal es event.now }
        ensures taken { OnOk result (IsTaken self.now event.now) }
        ensures refused { IfErr result (IsStopped self.now event.now) }
    {
        self.stays_recorded();
        match refusal {
            Some(refusal) => Err(BuildError::Refused(refusal)),
            None => Ok(()),
        }
    }

    /// The open call that a reply or a fail ends, or the refusal of that event if there is none.
    pub(crate) fn ended_call(&self, event: &LineEvent) -> Result<Open, BuildError>
        requires { (parts : AReplyParts) × (ended_by event.now.kind ≡ Some parts) }
        ensures ok { IfOk result (λ o. IsStanding self.now.events event.now.process (Opened o)) }
        ensures err { IfErr result (IsStopped self.now event.now) }
    {
        match self.standing(event.process) {
            Standing::Opened(opened) => Ok(opened),
            Standing::Crashed(crash) => Err(BuildError::Refused(self.crash_refusal(event, crash))),
            Standing::Free => Err(BuildError::Refused(refused(event.line, Reason::NoOpenCall))),
        }
    }

    /// The refusal of a call, if there is one. `last` is the last event of the call's register and value.
    pub(crate) fn call_refusal(&self, event: &LineEvent, last: Option<EvId>) -> Option<LineRefusal>
        requires { (asked : Asked) × (number : Option ℕ) × (asked_by event.now.kind ≡ Some asked)
            × IsNumber self.now.names asked.register number
            × IsLastWith self.now.events number asked.value last }
        ensures { (es : List ALineEvent) → AreAccepted es → self.now ≡ history_of es
            → result ≡ event_refusal es event.now }
    {
        let standing = self.standing(event.process);
        if let Standing::Opened(opened) = standing {
            return Some(refused(event.line, Reason::OpenCall(self.event(opened.call).line)));
        }
        if let Some(write) = self.written(last) {
            return Some(refused(event.line, Reason::WrittenBefore(self.event(write).line)));
        }
        self.late_refusal(event, standing)
    }

    /// The refusal of a reply to an open call, if there is one.
    pub(crate) fn reply_refusal(
        &self,
        event: &LineEvent,
        parts: &ReplyParts,
        opened: Open,
    ) -> Option<LineRefusal>
        requires reply { replied_by event.now.kind ≡ Some parts.now }
        requires opened { IsStanding self.now.events event.now.process (Opened opened) }
        ensures { (es : List ALineEvent) → AreAccepted es → self.now ≡ history_of es
            → result ≡ event_refusal es event.now }
    {
        if !reply_agrees(parts, &self.names, opened) {
            return Some(refused(event.line, Reason::Disagreement));
        }
        if opened.value.is_none() && parts.value.is_none() {
            return Some(refused(event.line, Reason::NoValue));
        }
        self.too_many(event)
    }

    /// The refusal of a fail of an open call, if there is one.
    pub(crate) fn fail_refusal(
        &self,
        event: &LineEvent,
        parts: &ReplyParts,
        opened: Open,
    ) -> Option<LineRefusal>
        requires fail { failed_by event.now.kind ≡ Some parts.now }
        requires opened { IsStanding self.now.events event.now.process (Opened opened) }
        ensures { (es : List ALineEvent) → AreAccepted es → self.now ≡ history_of es
            → result ≡ event_refusal es event.now }
    {
        if !fail_agrees(parts, &self.names, opened) {
            return Some(refused(event.line, Reason::Disagreement));
        }
        self.too_many(event)
    }

    /// The refusal of an event that neither its kind nor its call refuses: it
    /// is past the limit, or its process crashed.
    pub(crate) fn late_refusal(&self, event: &LineEvent, standing: Standing) -> Option<LineRefusal>
        requires { IsStanding self.now.events event.now.process standing }
        ensures { (es : List ALineEvent) → AreAccepted es → self.now ≡ history_of es
            → result ≡ late_refusal es event.now }
    {
        match standing {
            Standing::Crashed(crash) => Some(self.crash_refusal(event, crash)),
            Standing::Opened(_) => self.too_many(event),
            Standing::Free => self.too_many(event),
        }
    }

    /// The refusal of an event after the crash of its process: it is
    /// past the limit, or else it names the crash.
    fn crash_refusal(&self, event: &LineEvent, crash: EvId) -> LineRefusal
        requires { IsStanding self.now.events event.now.process (Crashed crash) }
        ensures { (es : List ALineEvent) → AreAccepted es → self.now ≡ history_of es
            → Some result ≡ late_refusal es event.now }
    {
        match self.too_many(event) {
            Some(refusal) => refusal,
            None => refused(event.line, Reason::AfterCrash(self.event(crash).line)),
        }
    }

    /// The refusal of an event past the limit.
    fn too_many(&self, event: &LineEvent) -> Option<LineRefusal>
        ensures { result ≡ cond (nat_le MAX_EVENTS (length self.now.events))
            (Some (record { line = event.now.line; reason = TooMany })) None }
    {
        if self.lists.event_count() >= MAX_EVENTS {
            Some(refused(event.line, Reason::TooMany))
        } else {
            None
        }
    }

    /// The call that wrote the value of the event `last` to its register before.
    fn written(&self, last: Option<EvId>) -> Option<EvId>
        requires { (number : Option ℕ) × (value : Option AVal)
            × IsLastWith self.now.events number value last }
        ensures { (number : Option ℕ) (value : Option AVal) → IsLastWith self.now.events number value last
            → IsWritten self.now.events number value result }
    {
        self.lists.written_by(last?)
    }
}
