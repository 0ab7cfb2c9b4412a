//! A history as it grows.
ghost use Rattle.std.specs.Prelude.{◌≡◌, ◌-◌, ◌++◌, [], string_bytes, OnOk};
ghost use Rattle.history_generator.specs.Line.{line_of};

use crate::event::{Event, push_line};
use std::alloc::{AllocError, Global};

/// The lines of the events so far, and how many events are still wanted.
#[derive(Drop)]
pub(crate) struct History {
    text: String,
    left: u32,
}

impl History {
    /// No lines, with this many events wanted.
    pub(crate) fn new(alloc: Global, events: u32) -> Self
        ensures text { string_bytes result.text ≡ [] }
        ensures left { result.left ≡ events }
    {
        History {
            text: String::new(alloc),
            left: events,
        }
    }

    /// How many events are still wanted.
    pub(crate) fn left(&self) -> u32
        ensures { result ≡ self.now.left }
    {
        self.left
    }

    /// Adds an event.
    pub(crate) fn record(&mut self, event: Event) -> Result<(), AllocError>
        ensures text { OnOk result (string_bytes self.new.text ≡ string_bytes self.old.text
            ++ line_of event) }
        ensures left { OnOk result (self.new.left ≡ self.old.left - 1) }
    {
        push_line(&mut self.text, event)?;
        self.left = self.left.saturating_sub(1);
        Ok(())
    }

    /// If one more event is wanted, adds the call of a read that stays
    /// pending, by a process without an open call.
    pub(crate) fn fill(&mut self, process: u32) -> Result<(), AllocError>
        ensures { OnOk result (self.new.left ≡ self.old.left - 1) }
    {
        if self.left == 0 {
            return Ok(());
        }
        self.record(Event::ReadCall {
            process,
            register: 0,
        })
    }

    /// All lines.
    pub(crate) fn into_text(self) -> String
        ensures { result ≡ self.text }
    {
        self.text
    }
}
