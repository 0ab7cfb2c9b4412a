//! What is looked up in the threaded lists.
ghost use Rattle.std.specs.Prelude.{◌≡◌, ◌<◌, ◌↔◌, ℕ, length, option_and_then, slice_get, None, Some, IsTrue};
ghost use Rattle.history_text.specs.declared.event.Val.{Val as AVal};
ghost use Rattle.history_model.specs.Walking.{IsFirstOf, by_process, by_value, key_at};
ghost use Rattle.reg_arena.specs.Lists.EventLists.{AreEventLists, IsAlike, IsKeptWrite, IsLastOf};
ghost use Rattle.reg_arena.specs.Lists.EventLists.{by_write, entry_in, event_number, events_in};
ghost use Rattle.history_model.specs.declared.event.Event.{Event as AnEvent};
ghost use Rattle.history_model.specs.declared.ids.EvId.{EvId as AnEvId};

use crate::event_lists::joins::whole;
use crate::event_lists::list_ends::Entry;
use crate::event_lists::lists::EventLists;
use history_model::{EvId, RegId};
use history_text::Val;

impl EventLists {
    /// The entry of a register and value, by one look-up.
    pub fn entry(&self, register: RegId, value: Val) -> Option<Entry>
        requires { AreEventLists self.now }
        ensures { result ≡ entry_in self.now (register.0, value) }
    {
        let number = self.pairs.number(register.0, whole(value))?;
        Some(self.entries[number as usize])
    }

    /// The number of the entry of an event's register and value, of which `alike` is an event.
    pub(crate) fn number_of(&self, alike: Option<EvId>) -> Option<u32>
        requires lists { AreEventLists self.now }
        requires within { (j : AnEvId) → alike ≡ Some j → j.0 < length (events_in self.now) }
        ensures { (e : AnEvent) → IsAlike (events_in self.now) e alike
            → result ≡ event_number self.now.pairs e }
    {
        self.rows.number(alike?)
    }

    /// The entry of an event's register and value.
    pub fn entry_of(&self, id: EvId) -> Option<Entry>
        requires lists { AreEventLists self.now }
        requires within { id.0 < length (events_in self.now) }
        ensures { result ≡ option_and_then (entry_in self.now)
            (key_at by_value (events_in self.now) id.0) }
    {
        let number = self.rows.number(id)?;
        Some(self.entries[number as usize])
    }

    /// The call of the write of a value to a register, if it didn't fail.
    pub fn write(&self, register: RegId, value: Val) -> Option<EvId>
        requires { AreEventLists self.now }
        ensures { IsKeptWrite (events_in self.now) (register.0, value) result }
    {
        self.entry(register, value)?.write.kept()
    }

    /// The call of the write of an event's value to its register, if it didn't fail.
    pub fn write_of_event(&self, id: EvId) -> Option<EvId>
        requires lists { AreEventLists self.now }
        requires within { id.0 < length (events_in self.now) }
        ensures { (k : ℕ × AVal) → key_at by_value (events_in self.now) id.0 ≡ Some k
            → IsKeptWrite (events_in self.now) k result }
    {
        self.entry_of(id)?.write.kept()
    }

    /// The call that wrote an event's value to its register, failed or not.
    pub fn written_by(&self, id: EvId) -> Option<EvId>
        requires lists { AreEventLists self.now }
        requires within { id.0 < length (events_in self.now) }
        ensures { (k : ℕ × AVal) → key_at by_value (events_in self.now) id.0 ≡ Some k
            → IsFirstOf by_write (events_in self.now) k result }
    {
        self.entry_of(id)?.write.called()
    }

    /// The last event of a register and value.
    pub fn last_of_value(&self, register: RegId, value: Option<Val>) -> Option<EvId>
        requires { AreEventLists self.now }
        ensures last { (v : AVal) → value ≡ Some v
            → IsLastOf by_value (events_in self.now) (register.0, v) result }
        ensures none { value ≡ None → result ≡ None }
    {
        Some(self.entry(register, value?)?.ends.last)
    }

    /// An event of a register with a value, if there is one. The register's last reply is looked at first:
    /// most reads return its value, and then nothing is looked up.
    pub fn alike(&self, register: RegId, value: Option<Val>) -> Option<EvId>
        requires { AreEventLists self.now }
        ensures { (e : AnEvent) → e.register ≡ Some register → e.value ≡ value
            → IsAlike (events_in self.now) e result }
    {
        let value = value?;
        match self.guesses.get(register.0 as usize) {
            Some(guess) if self.is_of(*guess, register, value) => Some(*guess),
            _ => self.last_of_value(register, Some(value)),
        }
    }

    /// Whether `id` is an event of this register with this value.
    fn is_of(&self, id: EvId, register: RegId, value: Val) -> bool
        ensures { IsTrue result
            ↔ ((e : AnEvent) × (slice_get (events_in self.now) id.0 ≡ Some e) × (e.register ≡ Some register)
            × (e.value ≡ Some value)) }
    {
        if id.0 as usize >= self.rows.len() {
            return false;
        }
        let event = self.rows.event(id);
        event.register == Some(register) && event.value == Some(value)
    }

    /// The last event of a process.
    pub fn last_of_process(&self, process: u32) -> Option<EvId>
        requires { AreEventLists self.now }
        ensures { IsLastOf by_process (events_in self.now) process result }
    {
        Some(self.processes.get(process)?.last)
    }
}
