//! An event in 24 bytes. An `Event`, whose options and enums have tags of their own, takes 48.
ghost use Rattle.std.specs.Prelude.{◌≡◌, ◌<◌, IfSome};
ghost use Rattle.reg_arena.specs.Lists.Rows.{unpacked, value_held};
ghost use Rattle.reg_arena.specs.declared.event_lists.options.TheConstants.{NO_NUMBER};

use crate::event_lists::options::OptionalNumber;
use history_model::{Event, RegId, What};
use history_text::Val;

/// Which value an event has; a number stands beside it.
#[derive(Clone, Copy)]
enum Holds {
    Nothing,
    Initial,
    Number,
}

/// An event.
#[derive(Clone, Copy)]
pub(crate) struct PackedEvent {
    line: u32,
    process: u32,
    register: OptionalNumber,
    what: What,
    holds: Holds,
    /// The value, if it is a number.
    number: i64,
}

const _: () = prove!(size_of::<PackedEvent>() == 24);

impl PackedEvent {
    /// The event, packed.
    pub(crate) fn new(event: &Event) -> Self
        requires { IfSome event.now.register (λ r. r.0 < NO_NUMBER) }
        ensures { unpacked result ≡ event.now }
    {
        let (holds, number) = match event.value {
            None => (Holds::Nothing, 0),
            Some(Val::Null) => (Holds::Initial, 0),
            Some(Val::Int(number)) => (Holds::Number, number),
        };
        PackedEvent {
            line: event.line,
            process: event.process,
            register: OptionalNumber::new(event.register.map(|register| register.0)),
            what: event.what,
            holds,
            number,
        }
    }

    /// The event.
    pub(crate) fn get(self) -> Event
        ensures { result ≡ unpacked self }
    {
        Event {
            line: self.line,
            process: self.process,
            register: match self.register.get() {
                Some(number) => Some(RegId(number)),
                None => None,
            },
            what: self.what,
            value: self.value(),
        }
    }

    /// The event's value, if it has one.
    fn value(self) -> Option<Val>
        ensures { result ≡ value_held self.holds self.number }
    {
        match self.holds {
            Holds::Nothing => None,
            Holds::Initial => Some(Val::Null),
            Holds::Number => Some(Val::Int(self.number)),
        }
    }
}
