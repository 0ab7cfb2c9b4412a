//! An accepted history, and what is asked of it. No call takes memory, and each always answers.
ghost use Rattle.std.specs.Prelude.{◌≡◌, ◌<◌, ◌≤◌, ◌↔◌, length, slice_get, None, Some, IsTrue};
ghost use Rattle.history_text.specs.declared.limits.TheConstants.{MAX_EVENTS};
ghost use Rattle.history_text.specs.Limits.{IsName};
ghost use Rattle.history_model.specs.History.{IsRecorded};
ghost use Rattle.history_model.specs.Operations.{Precedes};
ghost use Rattle.history_model.specs.declared.operation.Operation.{Operation};
ghost use Rattle.history_model.specs.Walking.{IsFirstOf, IsNextOf, by_process, by_register, by_value, key_at};
ghost use Rattle.history_model.specs.Naming.{IsNamed, IsOper, IsOperOf, begins_at, op_shown};
ghost use Rattle.history_model.specs.OfValue.{IsWriteOf};
ghost use Rattle.history_model.specs.declared.event.Event.{Event as AnEvent};

use crate::event_lists::EventLists;
use crate::names::Names;
use history_model::{EvId, Event, Op, Oper, RegId};
use history_text::{OpKind, Val};
use std::marker::Model;

/// A history that is well formed, which contracts see as its registers' names and its events.
#[derive(Drop)]
pub struct Arena {
    pub(crate) names: Names,
    pub(crate) lists: EventLists,
}

impl Model for Arena {
    ghost use Rattle.std.specs.Prelude.{◌≡◌, length};
    ghost use Rattle.history_model.specs.History.{History, IsRecorded};
    ghost use Rattle.reg_arena.specs.Lists.EventLists.{AreEventLists, events_in, register_ends};

    ghost Value = { History };

    ghost view = { λ a. record { names = a.names; events = events_in a.lists } };

    ghost invariant = { λ a. AreEventLists a.lists × (length a.names ≡ length (register_ends a.lists))
        × IsRecorded (record { names = a.names; events = events_in a.lists }) };
}

impl Arena {
    /// How many events there are, at most [`MAX_EVENTS`](history_text::MAX_EVENTS).
    pub fn event_count(&self) -> u32
        ensures count { result ≡ length self.now.events }
        ensures bound { result ≤ MAX_EVENTS }
        ensures recorded { IsRecorded self.now }
    {
        self.lists.event_count() as u32
    }

    /// How many registers there are: no more than events.
    pub fn register_count(&self) -> u32
        ensures count { result ≡ length self.now.names }
        ensures bound { result ≤ MAX_EVENTS }
    {
        self.names.len() as u32
    }

    /// The name of a register.
    pub fn name(&self, register: RegId) -> &str
        requires { register.0 < length self.now.names }
        ensures at { slice_get self.now.names register.0 ≡ Some result.now }
        ensures bound { IsName result.now }
    {
        self.names.get(register.0)
    }

    /// The event at `id`.
    pub fn event(&self, id: EvId) -> Event
        requires { id.0 < length self.now.events }
        ensures at { slice_get self.now.events id.0 ≡ Some result }
        ensures bound { length self.now.events ≤ MAX_EVENTS }
        ensures recorded { IsRecorded self.now }
    {
        self.lists.event(id)
    }

    /// The operation of this name, with its times.
    pub fn op(&self, oper: Oper) -> Op
        requires { IsOper self.now oper }
        ensures { (o : Operation) × IsNamed self.now oper o × (result ≡ op_shown o) }
    {
        match oper {
            Oper::Initial(register) => Op {
                line: 0,
                call: 0,
                reply: Some(1),
                process: None,
                register,
                kind: OpKind::WriteOp,
                value: Some(Val::Null),
            },
            Oper::Called(id) => self.called(id),
        }
    }

    /// The operation that the event belongs to, as its call or as its reply. A crash, a fail
    /// and the call that failed belong to none.
    pub fn op_of(&self, id: EvId) -> Option<Oper>
        requires { id.0 < length self.now.events }
        ensures { IsOperOf self.now id.0 result }
    {
        self.lists.call(id).map(Oper::Called)
    }

    /// Whether the event begins an operation: it is a call that didn't fail.
    pub fn begins(&self, id: EvId) -> bool
        requires { id.0 < length self.now.events }
        ensures { (e : AnEvent) → slice_get self.now.events id.0 ≡ Some e
            → result ≡ begins_at self.now.events id.0 e }
    {
        match self.lists.call(id) {
            Some(call) => call.0 == id.0,
            None => false,
        }
    }

    /// Whether the first is completed before the second is called.
    pub fn precedes(&self, one: Oper, other: Oper) -> bool
        requires one { IsOper self.now one }
        requires other { IsOper self.now other }
        ensures { (a b : Operation) → IsNamed self.now one a → IsNamed self.now other b
            → (IsTrue result ↔ Precedes a b) }
    {
        match self.op(one).reply {
            None => false,
            Some(reply) => reply < self.op(other).call,
        }
    }

    /// The first event of a register.
    pub fn first_of_register(&self, register: RegId) -> Option<EvId>
        ensures { IsFirstOf by_register self.now.events register.0 result }
    {
        self.lists.first_in_register(register)
    }

    /// The next event of the same register; of a crash, which has no register, `None`.
    pub fn next_in_register(&self, id: EvId) -> Option<EvId>
        requires { id.0 < length self.now.events }
        ensures next { IsNextOf by_register self.now.events id.0 result }
        ensures none { key_at by_register self.now.events id.0 ≡ None → result ≡ None }
    {
        self.lists.next_in_register(id)
    }

    /// The first event of a process.
    pub fn first_of_process(&self, process: u32) -> Option<EvId>
        ensures { IsFirstOf by_process self.now.events process result }
    {
        self.lists.first_in_process(process)
    }

    /// The next event of the same process.
    pub fn next_in_process(&self, id: EvId) -> Option<EvId>
        requires { id.0 < length self.now.events }
        ensures { IsNextOf by_process self.now.events id.0 result }
    {
        self.lists.next_in_process(id)
    }

    /// The first event of a register with a value. A read's call, a failed read's fail and a crash have none.
    pub fn first_with_value(&self, register: RegId, value: Val) -> Option<EvId>
        ensures { IsFirstOf by_value self.now.events (register.0, value) result }
    {
        self.lists.first_with_value(register, value)
    }

    /// The next event of the same register and value; of an event without a value `None`.
    pub fn next_with_value(&self, id: EvId) -> Option<EvId>
        requires { id.0 < length self.now.events }
        ensures next { IsNextOf by_value self.now.events id.0 result }
        ensures none { key_at by_value self.now.events id.0 ≡ None → result ≡ None }
    {
        self.lists.next_with_value(id)
    }

    /// The write of a value to a register, which didn't fail: of `Null` the initial write.
    pub fn write_of(&self, register: RegId, value: Val) -> Option<Oper>
        requires { register.0 < length self.now.names }
        ensures { IsWriteOf self.now register.0 value result }
    {
        match value {
            Val::Null => Some(Oper::Initial(register)),
            Val::Int(_) => self.lists.write(register, value).map(Oper::Called),
        }
    }
}
