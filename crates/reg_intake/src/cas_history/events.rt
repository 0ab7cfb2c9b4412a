//! The events of the lines so far.
ghost use Rattle.std.specs.Prelude.{◌≡◌, ◌<◌, ◌≤◌, ◌++◌, ◌∷◌, List, [], None, IfErr, IfOk, IfSome, OnErr};
ghost use Rattle.std.specs.Prelude.{OnOk, length};
ghost use Rattle.std.specs.Option.{option_copied};
ghost use Rattle.history_model.specs.Table.{last_event};
ghost use Rattle.reg_intake.specs.CasHistory.Events.{any_form};
ghost use Rattle.reg_intake.specs.CasHistory.History.{IsHistoryOf};
ghost use Rattle.history_text.specs.declared.event.AnyEvent.{AnyEvent as AnEvent};
ghost use Rattle.reg_intake.specs.CasHistory.Kept.{AreLinked, linked_from};
ghost use Rattle.reg_intake.specs.CasHistory.Listed.{AreLinesAndWords, IsHistoryBy};
ghost use Rattle.reg_intake.specs.CasHistory.Refusals.{IsTakeError, event_refusal as refusal_of};

use crate::cas_history::calls::call_words;
use crate::cas_history::history::History;
use crate::cas_history::reason::event_refusal;
use crate::cas_history::registers::Registers;
use history_model::BuildError;
use history_text::{AnyEvent, MAX_EVENTS, OpWord};
use parallel::both;
use reg_arena::HashKey;
use std::alloc::{AllocError, Global};
use std::collections::BTreeMap;
use std::marker::Model;
use std::thread::Threads;

/// The line of each event, and the word of each event's call, if it is one.
type Lists = (Vec<u32>, Vec<Option<OpWord>>);

/// Events that were taken in, one after another. Contracts see them as a list.
#[derive(Drop)]
pub struct Events {
    events: Vec<AnyEvent>,
    /// The place of the next event of each event's process, if there is one.
    next: Vec<Option<u32>>,
    /// The place of each process's last event.
    last: BTreeMap<u32, usize>,
}

impl Model for Events {
    ghost use Rattle.std.specs.Prelude.{List};
    ghost use Rattle.std.specs.Ordering.{nat_cmp};
    ghost use Rattle.std.specs.BTreeMap.{get};
    ghost use Rattle.history_text.specs.declared.event.AnyEvent.{AnyEvent as AnEvent};
    ghost use Rattle.reg_intake.specs.CasHistory.Kept.{IsKept};

    ghost Value = { List AnEvent };

    ghost view = { λ e. e.events.items };

    ghost invariant = { λ e. IsKept e.events.items e.next.items (get nat_cmp e.last) };
}

impl Events {
    /// No events.
    pub fn none(alloc: Global) -> Self
        ensures { result ≡ [] }
    {
        Events {
            events: Vec::new(alloc),
            next: Vec::new(alloc),
            last: BTreeMap::new(alloc),
        }
    }

    /// Takes in one more event.
    ///
    /// # Errors
    /// `Refused` if the event is refused after the others, and `Memory`. The events are as they were then.
    pub fn take(&mut self, event: AnyEvent) -> Result<(), BuildError>
        ensures ok { OnOk result (self.new ≡ self.old ++ event ∷ []) }
        ensures accepted { OnOk result (refusal_of self.old event ≡ None) }
        ensures err { IfErr result (IsTakeError self.old event) }
        ensures same { OnErr result (self.new ≡ self.old) }
    {
        let place = self.events.len();
        let last = self.last_of(event.process);
        if let Some(refusal) = event_refusal(place, last, &event) {
            return Err(BuildError::Refused(refusal));
        }
        let process = event.process;
        push_unlinked(&mut self.events, &mut self.next, event)?;
        match self.last.insert(process, place) {
            Ok(before) => {
                link(&mut self.next, before, place);
                Ok(())
            }
            Err(_) => {
                self.events.truncate(place);
                self.next.truncate(place);
                Err(BuildError::Memory)
            }
        }
    }

    /// The last event of a process.
    fn last_of(&self, process: u32) -> Option<&AnyEvent>
        ensures { option_copied result ≡ last_event any_form self.now process }
    {
        let place = *self.last.get(&process)?;
        self.events.get(place)
    }

    /// The history of the events, of which another thread lists the lines and the words. The key is that of
    /// the names' hashes.
    ///
    /// The error says that memory ran out.
    pub(crate) fn history<T: Threads + Sync>(
        self,
        rt: &T,
        alloc: Global,
        key: HashKey,
    ) -> Result<History, AllocError>
        ensures { IfOk result (IsHistoryOf self) }
    {
        let (registers, lists) = registers_and_lists(rt, alloc, &self.events, &self.next, key);
        history_by(alloc, registers?, lists?)
    }

    /// The same, by the calling thread alone.
    pub fn history_alone(self, alloc: Global, key: HashKey) -> Result<History, AllocError>
        ensures { IfOk result (IsHistoryOf self) }
    {
        let registers = Registers::of(alloc, &self.events, &self.next, key)?;
        let lists = lines_and_words(alloc, &self.events)?;
        history_by(alloc, registers, lists)
    }
}

/// The registers of some events, and their lists, made by another thread.
fn registers_and_lists<T: Threads + Sync>(
    rt: &T,
    alloc: Global,
    events: &[AnyEvent],
    next: &[Option<u32>],
    key: HashKey,
) -> (Result<Registers, AllocError>, Result<Lists, AllocError>)
    requires few { length events.now ≤ MAX_EVENTS }
    requires linked { AreLinked events.now next.now }
    ensures registers { IfOk result.0 (IsHistoryBy events.now) }
    ensures lists { IfOk result.1 (AreLinesAndWords events.now) }
{
    let (lists, registers) = both(
        rt,
        || -> Result<Lists, AllocError>
            ensures { IfOk result (AreLinesAndWords events.entry.now) }
        { lines_and_words(alloc, events) },
        || -> Result<Registers, AllocError>
            requires { (length events.now ≤ MAX_EVENTS) × AreLinked events.now next.now }
            ensures { IfOk result (IsHistoryBy events.entry.now) }
        { Registers::of(alloc, events, next, key) },
    );
    (registers, lists)
}

/// The line of each event, and the word of each call.
fn lines_and_words(alloc: Global, events: &[AnyEvent]) -> Result<Lists, AllocError>
    ensures { IfOk result (AreLinesAndWords events.now) }
{
    let lines = events.iter().map(|event| event.line).collect(alloc)?;
    let words = call_words(alloc, events)?;
    Ok((lines, words))
}

/// The history of the events that have these registers and lists.
fn history_by(alloc: Global, registers: Registers, lists: Lists) -> Result<History, AllocError>
    ensures { (events : List AnEvent) → IsHistoryBy events registers → AreLinesAndWords events lists
        → IfOk result (IsHistoryOf events) }
{
    let Registers {
        naming,
        operations: registers,
        count: operations,
    } = registers;
    let (lines, words) = lists;
    Ok(History {
        names: naming.into_names(alloc)?,
        registers,
        operations,
        lines,
        words,
    })
}

/// Adds an event without a next one. If memory runs out, the lists stay as they are.
fn push_unlinked(
    events: &mut Vec<AnyEvent>,
    next: &mut Vec<Option<u32>>,
    event: AnyEvent,
) -> Result<(), AllocError>
    ensures events { OnOk result (events.new.items ≡ events.old.items ++ event ∷ []) }
    ensures next { OnOk result (next.new.items ≡ next.old.items ++ None ∷ []) }
    ensures same_events { OnErr result (events.new.items ≡ events.old.items) }
    ensures same_next { OnErr result (next.new.items ≡ next.old.items) }
{
    next.push(None)?;
    match events.push(event) {
        Ok(()) => Ok(()),
        Err(_) => {
            next.pop();
            Err(AllocError)
        }
    }
}

/// Links the event at this place to the one before it of its process, if there is one.
fn link(next: &mut Vec<Option<u32>>, before: Option<usize>, place: usize)
    requires before { IfSome before (λ i. i < length next.old.items) }
    requires place { place < MAX_EVENTS }
    ensures { next.new.items ≡ linked_from next.old.items before place }
{
    if let Some(before) = before {
        next[before] = Some(place as u32);
    }
}
