//! Events in one list, each with its links in three families of lists: of each register, of each
//! process, and of each register and value.
ghost use Rattle.std.specs.Prelude.{◌≡◌, ◌≢◌, ◌<◌, ◌≤◌, ◌+◌, ◌++◌, ◌∷◌, []};
ghost use Rattle.std.specs.Prelude.{true, length, max, OnOk, IfOk, IfSome};
ghost use Rattle.history_text.specs.declared.limits.TheConstants.{MAX_EVENTS};
ghost use Rattle.reg_arena.specs.Lists.EventLists.{AreEventLists, IsAlike, IsAppendable, calls_with, end_of};
ghost use Rattle.reg_arena.specs.Lists.EventLists.{events_in, register_ends};
ghost use Rattle.history_model.specs.Operations.{is_a_fail, number_in};
ghost use Rattle.history_model.specs.declared.event.What.TheVariants.{Crash};
ghost use Rattle.reg_arena.specs.Lists.Rows.{with_calls};
ghost use Rattle.reg_arena.specs.declared.event_lists.options.TheConstants.{NO_NUMBER};

use crate::event_lists::hasher::Seeded;
use crate::event_lists::joins::{Joined, join_process, join_register, join_value};
use crate::event_lists::list_ends::{Ends, Entry};
use crate::event_lists::pairs::Pairs;
use crate::event_lists::processes::Processes;
use crate::event_lists::rows::Rows;
use history_model::{EvId, Event, What};
use std::alloc::{AllocError, Global};

/// The events of a history in their order, with their links, and the ends of their lists.
#[derive(Drop)]
pub struct EventLists {
    pub(crate) rows: Rows,
    pub(crate) registers: Vec<Ends>,
    /// The last reply of each register, or its first event while it has none: a guess at an event with the
    /// value that the next read returns. No contract speaks of it; `alike` looks whether it fits.
    pub(crate) guesses: Vec<EvId>,
    pub(crate) processes: Processes,
    /// The registers and values that events have; the number of each is that of its entry.
    pub(crate) pairs: Pairs,
    pub(crate) entries: Vec<Entry>,
}

impl EventLists {
    /// No events, with room for as many as `count`.
    pub fn new(alloc: Global, count: usize, hasher: Seeded) -> Result<Self, AllocError>
        ensures lists { IfOk result AreEventLists }
        ensures none { IfOk result (λ t. events_in t ≡ []) }
        ensures registers { IfOk result (λ t. register_ends t ≡ []) }
    {
        Ok(EventLists {
            rows: Rows::with_capacity(alloc, count)?,
            registers: Vec::new(alloc),
            guesses: Vec::new(alloc),
            processes: Processes::new(alloc, count, hasher),
            pairs: Pairs::new(alloc, hasher),
            entries: Vec::new(alloc),
        })
    }

    /// Forgets all events.
    pub fn clear(&mut self)
        ensures lists { AreEventLists self.new }
        ensures none { events_in self.new ≡ [] }
        ensures registers { register_ends self.new ≡ [] }
    {
        self.rows.clear();
        self.registers.clear();
        self.guesses.clear();
        self.processes.clear();
        self.pairs.clear();
        self.entries.clear();
    }

    /// Appends an event with the event of its call, and joins it to its lists. `alike` is an event of the
    /// same register and value, if there is one.
    ///
    /// A crash has no call, and `call` is then not read. A fail takes
    /// the call that it ends from the operations.
    pub fn append(
        &mut self,
        event: &Event,
        call: EvId,
        alike: Option<EvId>,
    ) -> Result<(), AllocError>
        requires lists { AreEventLists self.old }
        requires register { number_in event.now.register ≤ length (register_ends self.old) }
        requires room { length (events_in self.old) < MAX_EVENTS }
        requires call { IsAppendable (events_in self.old) event.now call }
        requires alike { IsAlike (events_in self.old) event.now alike }
        ensures lists { OnOk result (AreEventLists self.new) }
        ensures registers { OnOk result
            (length (register_ends self.new) ≡ max (length (register_ends self.old))
            (end_of event.now.register)) }
        ensures events { OnOk result ((events_in self.new) ≡ events_in self.old ++ event.now ∷ []) }
    {
        let id = EvId(self.rows.len() as u32);
        let found = self.number_of(alike);
        keep_guess(&mut self.guesses, event, id)?;
        join_register(&mut self.rows, &mut self.registers, event.register, id)?;
        join_process(&mut self.rows, &mut self.processes, event.process, id)?;
        let number = join_value(
            &mut self.rows,
            &mut self.pairs,
            &mut self.entries,
            event,
            Joined {
                number: found,
                id,
                call,
            },
        )?;
        let call = join_call(&mut self.rows, event.what, call);
        self.rows.push(event, call, number)?;
        Ok(())
    }
}

/// Keeps event `id` as its register's guess, if it is a reply or the register's first event.
fn keep_guess(guesses: &mut Vec<EvId>, event: &Event, id: EvId) -> Result<(), AllocError> {
    let Some(register) = event.register else {
        return Ok(());
    };
    let number = register.0 as usize;
    if number >= guesses.len() {
        guesses.push(id)?;
    } else if let What::Reply(_) = event.what {
        guesses[number] = id;
    }
    Ok(())
}

/// The call that an event has beside it. A fail takes its call from the operations, and has none.
fn join_call(rows: &mut Rows, what: What, call: EvId) -> Option<EvId>
    requires fail { is_a_fail what ≡ true → call.0 < length rows.old.events }
    requires bound { what ≢ Crash → call.0 < NO_NUMBER }
    ensures calls { rows.new.calls ++ result ∷ [] ≡ calls_with rows.old.calls what call }
    ensures others { rows.new ≡ with_calls rows.old rows.new.calls }
    ensures bound { IfSome result (λ id. id.0 < NO_NUMBER) }
{
    match what {
        What::Call(_) | What::Reply(_) => Some(call),
        What::Fail(_) => {
            rows.forget_call(call);
            None
        }
        What::Crash => None,
    }
}
