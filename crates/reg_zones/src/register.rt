//! A register of an arena, with what is known of it.
ghost use Rattle.std.specs.Prelude.{◌≡◌, ◌<◌, ◌↔◌, IsTrue, Some, length};
ghost use Rattle.history_model.specs.History.{IsRecorded};
ghost use Rattle.history_model.specs.Naming.{IsNamed, IsOper, IsOperOf, op_shown};
ghost use Rattle.history_model.specs.declared.operation.Operation.{Operation};
ghost use Rattle.history_model.specs.Walking.{by_register, key_at};
ghost use Rattle.reg_zones.specs.Sweep.{IsMetAt};

use history_model::{EvId, Op, Oper, RegId};
use reg_arena::Arena;

/// What an event of a register is.
#[derive(Clone, Copy, Debug, PartialEq, Eq)]
pub(crate) enum Met {
    /// The call of this operation, which has this name.
    Call(Oper, Op),
    /// The reply to a call. Its operation isn't looked up: a reply has the value of its operation.
    Reply,
    /// A fail, or the call that failed.
    Nothing,
}

/// A register of an arena, whose history is an accepted one.
#[derive(Clone, Copy)]
pub(crate) struct Register<'a> {
    pub(crate) arena: &'a Arena,
    pub(crate) id: RegId,
    ghost known: { id.0 < length arena.now.names },
    ghost accepted: { ∥ IsRecorded arena.now ∥₁ },
}

impl<'a> Register<'a> {
    /// The register of this number.
    pub(crate) fn new(arena: &'a Arena, id: RegId) -> Self
        requires { id.0 < length arena.now.names }
        ensures arena { result.arena.now ≡ arena.now }
        ensures id { result.id ≡ id }
    {
        // The contract of `event_count` says that the history is an accepted one.
        let _count = arena.event_count();
        Register { arena, id }
    }

    /// The operation of this name, with its register.
    pub(crate) fn with_operation(arena: &'a Arena, oper: Oper) -> (Self, Op)
        requires { IsOper arena.now oper }
        ensures arena { result.0.arena.now ≡ arena.now }
        ensures operation { (o : Operation) × IsNamed arena.now oper o × (result.1 ≡ op_shown o)
            × (result.0.id.0 ≡ o.register) }
    {
        // The register of an operation of such a history is one of the arena's.
        let _count = arena.event_count();
        let op = arena.op(oper);
        (Register::new(arena, op.register), op)
    }

    /// What an event of the register is, by the operation that it belongs to: a call, a reply or neither.
    pub(crate) fn meet(self, id: EvId, oper: Option<Oper>) -> Met
        requires event { key_at by_register self.arena.now.events id.0 ≡ Some self.id.0 }
        requires oper { IsOperOf self.arena.now id.0 oper }
        ensures { IsMetAt self.entry.arena.now self.entry.id.0 id.0 result }
    {
        match oper {
            Some(oper) if is_called_at(oper, id) => Met::Call(oper, self.arena.op(oper)),
            Some(_) => Met::Reply,
            None => Met::Nothing,
        }
    }
}

/// Whether the operation's call is this event.
fn is_called_at(oper: Oper, id: EvId) -> bool
    ensures { IsTrue result ↔ (oper ≡ Oper.Called id) }
{
    match oper {
        Oper::Called(call) => call.0 == id.0,
        Oper::Initial(_) => false,
    }
}
