//! The one list of events, and the walks through its families of lists.
ghost use Rattle.std.specs.Prelude.{◌≡◌, ◌<◌, length, None, slice_get, Some};
ghost use Rattle.reg_arena.specs.Lists.EventLists.{AreEventLists, IsCallOf, events_in, register_ends};
ghost use Rattle.history_model.specs.Walking.{IsFirstOf, IsNextOf, by_process, by_register, by_value, key_at};
ghost use Rattle.history_model.specs.declared.event.Event.{Event as AnEvent};

use crate::event_lists::list_ends::Ends;
use crate::event_lists::lists::EventLists;
use history_model::{EvId, Event, RegId};
use history_text::Val;

impl EventLists {
    /// How many events there are.
    pub fn event_count(&self) -> usize
        ensures { result ≡ length (events_in self.now) }
    {
        self.rows.len()
    }

    /// The event at `id`.
    pub fn event(&self, id: EvId) -> Event
        requires { id.0 < length (events_in self.now) }
        ensures { slice_get (events_in self.now) id.0 ≡ Some result }
    {
        self.rows.event(id)
    }

    /// The call of the operation that an event belongs to. A crash, a fail and the call that failed belong
    /// to none.
    pub fn call(&self, id: EvId) -> Option<EvId>
        requires lists { AreEventLists self.now }
        requires within { id.0 < length (events_in self.now) }
        ensures { (e : AnEvent) → slice_get (events_in self.now) id.0 ≡ Some e
            → IsCallOf (events_in self.now) id.0 e result }
    {
        self.rows.call(id)
    }

    /// The first event of a register.
    pub fn first_in_register(&self, register: RegId) -> Option<EvId>
        requires { AreEventLists self.now }
        ensures { IsFirstOf by_register (events_in self.now) register.0 result }
    {
        Some(ends_of(&self.registers, register)?.first)
    }

    /// The next event of the same register; of a crash, which has no register, `None`.
    pub fn next_in_register(&self, id: EvId) -> Option<EvId>
        requires lists { AreEventLists self.now }
        requires within { id.0 < length (events_in self.now) }
        ensures next { IsNextOf by_register (events_in self.now) id.0 result }
        ensures none { key_at by_register (events_in self.now) id.0 ≡ None → result ≡ None }
    {
        self.rows.next_in_register(id)
    }

    /// The first event of a process.
    pub fn first_in_process(&self, process: u32) -> Option<EvId>
        requires { AreEventLists self.now }
        ensures { IsFirstOf by_process (events_in self.now) process result }
    {
        Some(self.processes.get(process)?.first)
    }

    /// The next event of the same process.
    pub fn next_in_process(&self, id: EvId) -> Option<EvId>
        requires lists { AreEventLists self.now }
        requires within { id.0 < length (events_in self.now) }
        ensures { IsNextOf by_process (events_in self.now) id.0 result }
    {
        self.rows.next_in_process(id)
    }

    /// The first event of a register with a value. A read's call, a failed read's fail and a crash have none.
    pub fn first_with_value(&self, register: RegId, value: Val) -> Option<EvId>
        requires { AreEventLists self.now }
        ensures { IsFirstOf by_value (events_in self.now) (register.0, value) result }
    {
        Some(self.entry(register, value)?.ends.first)
    }

    /// The next event of the same register and value; of an event without a value `None`.
    pub fn next_with_value(&self, id: EvId) -> Option<EvId>
        requires lists { AreEventLists self.now }
        requires within { id.0 < length (events_in self.now) }
        ensures next { IsNextOf by_value (events_in self.now) id.0 result }
        ensures none { key_at by_value (events_in self.now) id.0 ≡ None → result ≡ None }
    {
        self.rows.next_in_value(id)
    }
}

/// The ends of a register's list, if it has events.
fn ends_of(registers: &[Ends], register: RegId) -> Option<Ends>
    ensures { result ≡ slice_get registers.now register.0 }
{
    registers.get(register.0 as usize).copied()
}
