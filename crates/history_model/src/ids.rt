//! The names of registers, events and operations, and the times of events.
ghost use Rattle.std.specs.Prelude.{◌≡◌, ◌<◌, ◌≤◌, ◌+◌, ◌-◌, ◌^◌};

/// A register, numbered from 0 in the order of the first calls.
#[derive(Clone, Copy, Debug, PartialEq, Eq)]
pub struct RegId(pub u32);

/// An event, numbered from 0 in the order of the lines.
#[derive(Clone, Copy, Debug, PartialEq, Eq)]
pub struct EvId(pub u32);

impl EvId {
    /// The time of the event. That of the first is 2: a register's
    /// initial write is called at 0 and replies at 1.
    pub fn time(self) -> u32
        requires { self.0 + 2 < 2 ^ 32 }
        ensures { result ≡ self.0 + 2 }
    {
        self.0 + 2
    }

    /// The event at a time, which is 2 or later.
    pub fn at(time: u32) -> Self
        requires { 2 ≤ time }
        ensures { result.0 ≡ time - 2 }
    {
        EvId(time - 2)
    }
}

/// An operation: a register's initial write, or the call with this event.
#[derive(Clone, Copy, Debug, PartialEq, Eq)]
pub enum Oper {
    Initial(RegId),
    Called(EvId),
}
