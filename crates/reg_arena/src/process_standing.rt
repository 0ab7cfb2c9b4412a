//! How a process stands by its last event.
ghost use Rattle.reg_arena.specs.Step.{IsStanding};

use crate::arena::Arena;
use history_model::{EvId, RegId, What};
use history_text::{OpKind, Val};

/// An open call, and what it asks for.
#[derive(Clone, Copy, Debug)]
pub(crate) struct Open {
    pub(crate) call: EvId,
    pub(crate) register: RegId,
    pub(crate) kind: OpKind,
    pub(crate) value: Option<Val>,
}

/// How a process stands.
#[derive(Clone, Copy, Debug)]
pub(crate) enum Standing {
    /// It has a call open.
    Opened(Open),
    /// It crashed, by this event.
    Crashed(EvId),
    /// It may call.
    Free,
}

impl Arena {
    /// How a process stands by its last event.
    pub(crate) fn standing(&self, process: u32) -> Standing
        ensures { IsStanding self.now.events process result }
    {
        let Some(last) = self.lists.last_of_process(process) else {
            return Standing::Free;
        };
        let event = self.event(last);
        match event.what {
            What::Call(kind) => match event.register {
                Some(register) => Standing::Opened(Open {
                    call: last,
                    register,
                    kind,
                    value: event.value,
                }),
                None => Standing::Free,
            },
            What::Crash => Standing::Crashed(last),
            What::Reply(_) | What::Fail(_) => Standing::Free,
        }
    }
}
