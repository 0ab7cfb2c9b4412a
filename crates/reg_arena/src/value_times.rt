//! Of a value's write and its completed reads, the last call and the first reply.
ghost use Rattle.std.specs.Prelude.{◌≡◌, ◌<◌, ℕ, length, None, Some};
ghost use Rattle.history_text.specs.declared.event.Val.{Val as AVal};
ghost use Rattle.history_model.specs.Walking.{by_value, key_at};
ghost use Rattle.history_model.specs.OfValue.{IsFirstReply, IsLastCall, IsWriteOf};
ghost use Rattle.reg_arena.specs.ValueTimes.{HasTimes, last_time, reply_time};
ghost use Rattle.reg_arena.specs.declared.event_lists.list_ends.Entry.{Entry as AnEntry};

use crate::arena::Arena;
use crate::event_lists::Entry;
use history_model::{EvId, Oper, RegId};
use history_text::Val;

impl Arena {
    /// The last time of a call among the write of a value to a register and its completed reads. `None`
    /// if the value was neither written nor read.
    pub fn last_call(&self, register: RegId, value: Val) -> Option<u32>
        requires { register.0 < length self.now.names }
        ensures { IsLastCall self.now register.0 value result }
    {
        last_time(value, self.lists.entry(register, value))
    }

    /// The first time of a reply among the completed ones of the write of a value to a register and of its
    /// reads. `None` if none of them is completed.
    pub fn first_reply(&self, register: RegId, value: Val) -> Option<u32>
        requires { register.0 < length self.now.names }
        ensures { IsFirstReply self.now register.0 value result }
    {
        match value {
            // The initial write replies before all events, so nothing is looked up.
            Val::Null => reply_time(value, None),
            Val::Int(_) => reply_time(value, self.lists.entry(register, value)),
        }
    }

    /// The write of an event's value to its register, with no look-up; of an event without a value `None`.
    pub fn write_of_event(&self, id: EvId) -> Option<Oper>
        requires { id.0 < length self.now.events }
        ensures write { (k : ℕ × AVal) → key_at by_value self.now.events id.0 ≡ Some k
            → IsWriteOf self.now k.0 k.1 result }
        ensures none { key_at by_value self.now.events id.0 ≡ None → result ≡ None }
    {
        let event = self.event(id);
        let value = event.value?;
        match value {
            Val::Null => Some(Oper::Initial(event.register?)),
            Val::Int(_) => self.lists.write_of_event(id).map(Oper::Called),
        }
    }

    /// `last_call` of the register and value of an event, with no
    /// look-up; of an event without a value `None`.
    pub fn last_call_of(&self, id: EvId) -> Option<u32>
        requires { id.0 < length self.now.events }
        ensures last { (k : ℕ × AVal) → key_at by_value self.now.events id.0 ≡ Some k
            → IsLastCall self.now k.0 k.1 result }
        ensures none { key_at by_value self.now.events id.0 ≡ None → result ≡ None }
    {
        match self.event(id).value {
            None => None,
            Some(value) => last_time(value, self.lists.entry_of(id)),
        }
    }

    /// `first_reply` of the register and value of an event, with no
    /// look-up; of an event without a value `None`.
    pub fn first_reply_of(&self, id: EvId) -> Option<u32>
        requires { id.0 < length self.now.events }
        ensures first { (k : ℕ × AVal) → key_at by_value self.now.events id.0 ≡ Some k
            → IsFirstReply self.now k.0 k.1 result }
        ensures none { key_at by_value self.now.events id.0 ≡ None → result ≡ None }
    {
        match self.event(id).value {
            None => None,
            Some(value) => reply_time(value, self.lists.entry_of(id)),
        }
    }
}

/// The last call by a value's entry; the initial write is called at 0.
fn last_time(value: Val, entry: Option<Entry>) -> Option<u32>
    requires { (y : AnEntry) → entry ≡ Some y → HasTimes y }
    ensures { result ≡ last_time value entry }
{
    let last = match entry {
        Some(entry) => entry.last_call(),
        None => None,
    };
    match (last, value) {
        (Some(call), _) => Some(call.time()),
        (None, Val::Null) => Some(0),
        (None, Val::Int(_)) => None,
    }
}

/// The first reply by a value's entry; the initial write replies at 1.
fn reply_time(value: Val, entry: Option<Entry>) -> Option<u32>
    requires { (y : AnEntry) → entry ≡ Some y → HasTimes y }
    ensures { result ≡ reply_time value entry }
{
    match value {
        Val::Null => Some(1),
        Val::Int(_) => Some(entry?.first_reply?.time()),
    }
}
