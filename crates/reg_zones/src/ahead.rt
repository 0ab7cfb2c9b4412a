//! What is ahead of a walk over a register's events.
ghost use Rattle.std.specs.Prelude.{◌≡◌, Some};
ghost use Rattle.history_model.specs.Naming.{IsOperOf};
ghost use Rattle.history_model.specs.Walking.{IsFirstOf, IsNextOf, IsOnWalk, by_register};
ghost use Rattle.history_model.specs.declared.ids.EvId.{EvId as AnEvId};
ghost use Rattle.reg_zones.specs.Ahead.{IsAhead};

use crate::register::Register;
use history_model::{EvId, Oper};

/// The two events that a walk comes to next, each with the operation that it belongs to, if it
/// belongs to one, and the event after them.
#[derive(Clone, Copy)]
pub(crate) struct Ahead {
    pub(crate) next: Option<EvId>,
    pub(crate) oper: Option<Oper>,
    second: Option<EvId>,
    second_oper: Option<Oper>,
    third: Option<EvId>,
}

impl Ahead {
    /// What is ahead before the first event.
    pub(crate) fn of(register: Register<'_>) -> Self
        ensures first { IsFirstOf by_register register.entry.arena.now.events register.entry.id.0
            result.next }
        ensures ahead { IsAhead register.entry.arena.now register.entry.id.0 result }
    {
        let next = register.arena.first_of_register(register.id);
        let second = event_after(register, next);
        Ahead {
            next,
            oper: oper_at(register, next),
            second,
            second_oper: oper_at(register, second),
            third: event_after(register, second),
        }
    }

    /// What is ahead one event further on.
    ///
    /// It reads the row of the third event, which may be far from that of the event at hand. So a step calls
    /// it first: the row is fetched while the event at hand and the one after it are judged.
    pub(crate) fn further(self, register: Register<'_>) -> Self
        requires { IsAhead register.arena.now register.id.0 self }
        ensures next { (id : AnEvId) → self.next ≡ Some id
            → IsNextOf by_register register.entry.arena.now.events id.0 result.next }
        ensures ahead { IsAhead register.entry.arena.now register.entry.id.0 result }
    {
        Ahead {
            next: self.second,
            oper: self.second_oper,
            second: self.third,
            second_oper: oper_at(register, self.third),
            third: event_after(register, self.third),
        }
    }
}

/// The operation that an event of the register belongs to, if there is an event and it belongs to one.
fn oper_at(register: Register<'_>, event: Option<EvId>) -> Option<Oper>
    requires { IsOnWalk register.arena.now.events register.id.0 event }
    ensures { (id : AnEvId) → event ≡ Some id → IsOperOf register.entry.arena.now id.0 result }
{
    register.arena.op_of(event?)
}

/// The event after an event of the register, if there is an event.
fn event_after(register: Register<'_>, event: Option<EvId>) -> Option<EvId>
    requires { IsOnWalk register.arena.now.events register.id.0 event }
    ensures next { (id : AnEvId) → event ≡ Some id
        → IsNextOf by_register register.entry.arena.now.events id.0 result }
    ensures on { IsOnWalk register.entry.arena.now.events register.entry.id.0 result }
{
    register.arena.next_in_register(event?)
}
