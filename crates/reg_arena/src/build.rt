//! From lines to an arena: each event is refused, or taken into the history so far.
ghost use Rattle.std.specs.Prelude.{◌≡◌, [], ℕ, List, Option, Ok, OnOk, bytes_eq};
ghost use Rattle.std.specs.Prelude.{flat_map, IfOk, IfErr, Some, true};
ghost use Rattle.history_text.specs.declared.event.LineEvent.{LineEvent as ALineEvent};
ghost use Rattle.reg_arena.specs.Built.{IsBuilt, IsBuiltWith};
ghost use Rattle.reg_arena.specs.Numbered.{AreNumbered, ArePartsNumbered, IsNumbered};
ghost use Rattle.reg_arena.specs.Numbered.{lines_of, name_called, names_with};
ghost use Rattle.std.specs.List.{position_or_len};
ghost use Rattle.history_model.specs.Events.{asked_by, failed_by, is_crash, replied_by};
ghost use Rattle.history_model.specs.History.{history_of};
ghost use Rattle.history_model.specs.Refusals.{AreAccepted, IsBuildError, Line, IsWellFormed, events_of};
ghost use Rattle.reg_arena.specs.Step.{IsLastWith, IsNumber, IsStep, step_result};

use crate::appends::CallParts;
use crate::arena::Arena;
use crate::event_lists::{EventLists, HashKey, Seeded};
use crate::names::Names;
use crate::numbering::{NumberedLines, Numbering};
use crate::refusals::refused;
use history_model::{BuildError, EvId, Reason, RegId};
use history_text::{Kind, LineEvent, LineFault, MAX_EVENTS, OpKind, ReplyParts, Val};
use std::alloc::{AllocError, Global};

impl Arena {
    /// The arena of all events of the lines, or the refusal of the first faulty line, with
    /// the lowest number that applies there. The key of its hashes is a digest of all
    /// events, for callers that have no random bytes.
    ///
    /// # Errors
    /// `Refused` if the history isn't well formed, and `Memory` if memory ran out; what was built and the
    /// lines are then dropped.
    pub fn build(
        alloc: Global,
        events: Vec<Result<LineEvent, LineFault>>,
    ) -> Result<Self, BuildError>
        ensures ok { IfOk result (λ a. IsWellFormed events.items
            × (a ≡ history_of (events_of events.items))) }
        ensures err { IfErr result (λ e. IsBuildError events.items e) }
    {
        let key = HashKey::digest(&events);
        let count = events.len();
        let numbered = Numbering::new(alloc, key).number_lines(alloc, events)?;
        let mut arena = Arena::empty(alloc, key, count)?;
        arena.add_lines(alloc, &numbered)?;
        Ok(arena)
    }

    /// The arena of no lines, with room for as many events as `count`, or for [`MAX_EVENTS`] if
    /// that is less. The key is that of its hashes.
    ///
    /// # Errors
    /// Out of memory.
    pub fn empty(alloc: Global, key: HashKey, count: usize) -> Result<Self, AllocError>
        ensures built { IfOk result (IsBuilt []) }
        ensures names { IfOk result (λ a. a.names ≡ []) }
    {
        Arena::new(alloc, MAX_EVENTS.min(count), Seeded::new(key))
    }

    /// The arena with the events of more lines after the others, or the refusal of the first faulty one of
    /// these, with the lowest number that applies there. The lines come in parts, in order, and have the
    /// numbers of their registers by the names so far, as [`Numbering`] gives them.
    ///
    /// # Errors
    /// `Refused` if the history isn't well formed, whatever stands after these lines, and `Memory` if memory
    /// ran out; what was built is then dropped.
    pub fn with_lines(mut self, alloc: Global, parts: &[NumberedLines]) -> Result<Self, BuildError>
        requires { ArePartsNumbered self.names parts.now }
        ensures { (before : List Line) → IsBuilt before self
            → IsBuiltWith before (flat_map lines_of parts.now) result }
    {
        for part in parts {
            self.add_lines(alloc, part)?;
        }
        Ok(self)
    }

    /// Takes in the events of more lines after the others, or gives the
    /// refusal of the first faulty one of these.
    fn add_lines(&mut self, alloc: Global, part: &NumberedLines) -> Result<(), BuildError>
        requires { AreNumbered self.old.names (lines_of part.now) part.now.numbers.items }
        ensures built { (before : List Line) → IsBuilt before self.old
            → IsBuiltWith before (lines_of part.now) (step_result self.new result) }
        ensures names { OnOk result (self.new.names ≡ names_with self.old.names (lines_of part.now)) }
    {
        for (place, line) in part.lines.iter().enumerate() {
            self.stays_recorded();
            match line {
                Err(fault) => {
                    let refusal = refused(fault.line, Reason::Faulty(fault.kind));
                    return Err(BuildError::Refused(refusal));
                }
                Ok(event) => self.step(alloc, event, part.numbers[place])?,
            }
        }
        Ok(())
    }

    /// The arena of no events, with room for as many as `count`.
    fn new(alloc: Global, count: usize, hasher: Seeded) -> Result<Self, AllocError>
        ensures { IfOk result (λ a. a ≡ history_of []) }
    {
        Ok(Arena {
            names: Names::new(alloc),
            lists: EventLists::new(alloc, count, hasher)?,
        })
    }

    /// Takes in the event of a line after the others, or gives its refusal. The
    /// number is that of the register that it calls.
    fn step(&mut self, alloc: Global, event: &LineEvent, number: usize) -> Result<(), BuildError>
        requires { IsNumbered self.old.names (name_called (Ok event.now)) number }
        ensures { (es : List ALineEvent) → AreAccepted es → self.old ≡ history_of es
            → IsStep es event.now (step_result self.new result) }
    {
        match &event.kind {
            Kind::CallRead(name) => {
                let parts = CallParts {
                    name,
                    kind: OpKind::ReadOp,
                    value: None,
                };
                self.call(alloc, event, parts, number)
            }
            Kind::CallWrite(name, n) => {
                let parts = CallParts {
                    name,
                    kind: OpKind::WriteOp,
                    value: Some(Val::Int(*n)),
                };
                self.call(alloc, event, parts, number)
            }
            Kind::Reply(parts) => self.reply(event, parts),
            Kind::Fail(parts) => self.fail(event, parts),
            Kind::Crash => self.crash(event),
        }
    }

    /// A step by a call.
    fn call(
        &mut self,
        alloc: Global,
        event: &LineEvent,
        parts: CallParts<'_>,
        number: usize,
    ) -> Result<(), BuildError>
        requires asked { asked_by event.now.kind
            ≡ Some (record { register = parts.name.now; kind = parts.kind; value = parts.value }) }
        requires number { number ≡ position_or_len (bytes_eq parts.name.now) self.old.names }
        ensures { (es : List ALineEvent) → AreAccepted es → self.old ≡ history_of es
            → IsStep es event.now (step_result self.new result) }
    {
        let number = self.known(number);
        let last = self.last_with(number, parts.value);
        self.accept(event, self.call_refusal(event, last))?;
        self.add_call(alloc, event, parts, number, last)?;
        Ok(())
    }

    /// A step by a reply.
    fn reply(&mut self, event: &LineEvent, parts: &ReplyParts) -> Result<(), BuildError>
        requires { replied_by event.now.kind ≡ Some parts.now }
        ensures { (es : List ALineEvent) → AreAccepted es → self.old ≡ history_of es
            → IsStep es event.now (step_result self.new result) }
    {
        let opened = self.ended_call(event)?;
        self.accept(event, self.reply_refusal(event, parts, opened))?;
        self.add_reply(event, parts, opened)?;
        Ok(())
    }

    /// A step by a fail.
    fn fail(&mut self, event: &LineEvent, parts: &ReplyParts) -> Result<(), BuildError>
        requires { failed_by event.now.kind ≡ Some parts.now }
        ensures { (es : List ALineEvent) → AreAccepted es → self.old ≡ history_of es
            → IsStep es event.now (step_result self.new result) }
    {
        let opened = self.ended_call(event)?;
        self.accept(event, self.fail_refusal(event, parts, opened))?;
        self.add_fail(event, opened)?;
        Ok(())
    }

    /// A step by a crash, which needs no open call.
    fn crash(&mut self, event: &LineEvent) -> Result<(), BuildError>
        requires { is_crash event.now ≡ true }
        ensures { (es : List ALineEvent) → AreAccepted es → self.old ≡ history_of es
            → IsStep es event.now (step_result self.new result) }
    {
        let standing = self.standing(event.process);
        self.accept(event, self.late_refusal(event, standing))?;
        self.add_crash(event)?;
        Ok(())
    }

    /// A register's number, if the register was called before.
    fn known(&self, number: usize) -> Option<u32>
        ensures { (name : List ℕ) → number ≡ position_or_len (bytes_eq name) self.now.names
            → IsNumber self.now.names name result }
    {
        if number < self.names.len() {
            Some(number as u32)
        } else {
            None
        }
    }

    /// The last event of a register and value, which may be new.
    fn last_with(&self, number: Option<u32>, value: Option<Val>) -> Option<EvId>
        ensures { IsLastWith self.now.events number value result }
    {
        self.lists.last_of_value(RegId(number?), value)
    }
}
