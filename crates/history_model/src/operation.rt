//! An operation of a history.
ghost use Rattle.std.specs.Prelude.{◌≡◌};
ghost use Rattle.history_model.specs.Operations.{reply_of};

use crate::act::Act;

/// A read, a write or a cas, with its times. Event `i` has time `i + 2`; the
/// initial write is called at 0 and replies at 1.
#[derive(Clone, Copy, Debug, PartialEq, Eq)]
pub struct Operation {
    /// The line of the call, from 1; 0 for an initial write.
    pub line: u32,
    /// The time of the call.
    pub call: u32,
    /// The time of the reply; if the operation is pending, one after all events that are known.
    pub reply: u32,
    /// Whether there is a reply; else the operation is pending.
    pub completed: bool,
    /// Who called it; nobody called an initial write.
    pub process: Option<u32>,
    /// The number of its register.
    pub register: u32,
    pub act: Act,
}

impl Operation {
    /// The time of the reply, if there is one.
    pub fn reply_time(&self) -> Option<u32>
        ensures { result ≡ reply_of self.now }
    {
        if self.completed {
            Some(self.reply)
        } else {
            None
        }
    }
}
