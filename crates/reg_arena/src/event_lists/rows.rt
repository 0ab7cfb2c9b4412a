//! What is kept of each event: the event, and beside it what leads to others. Nearly all of it lies in one
//! row, so that looking at an event touches one place in memory. Only the links of the registers lie apart: a
//! walk finds the events ahead by them alone, and can have their rows fetched before it needs them.
ghost use Rattle.std.specs.Prelude.{◌≡◌, ◌<◌, length, set, slice_get, Some, None, IfSome, IfOk, OnOk};
ghost use Rattle.history_model.specs.declared.ids.EvId.{EvId as AnEvId};
ghost use Rattle.reg_arena.specs.Lists.Rows.{no_columns, with_calls, with_event, with_in_process};
ghost use Rattle.reg_arena.specs.Lists.Rows.{with_in_register, with_in_value};
ghost use Rattle.reg_arena.specs.declared.event_lists.options.TheConstants.{NO_NUMBER};

use crate::event_lists::options::{OptionalEvent, OptionalNumber};
use crate::event_lists::packing::PackedEvent;
use history_model::{EvId, Event};
use std::alloc::{AllocError, Global};
use std::marker::Model;

/// What is kept of one event.
#[derive(Clone, Copy)]
struct Row {
    event: PackedEvent,
    /// The call of the operation that the event belongs to.
    call: OptionalEvent,
    /// The next event of the same process, and of the same register and value.
    in_process: OptionalEvent,
    in_value: OptionalEvent,
    /// The number of the entry of the event's register and value.
    number: OptionalNumber,
}

const _: () = prove!(size_of::<Row>() == 40);

/// What is kept of all events, in their order. Contracts see a column for each part of it.
#[derive(Drop)]
pub(crate) struct Rows {
    rows: Vec<Row>,
    /// The next event of the same register, for each event.
    in_register: Vec<OptionalEvent>,
}

impl Model for Rows {
    ghost use Rattle.reg_arena.specs.Lists.Rows.{Columns, columns_of};

    ghost Value = { Columns };

    ghost view = { λ r. columns_of r.rows.items r.in_register.items };
}

impl Rows {
    /// No events, with room for as many as `count`.
    pub(crate) fn with_capacity(alloc: Global, count: usize) -> Result<Self, AllocError>
        ensures { IfOk result (λ rows. rows ≡ no_columns) }
    {
        Ok(Rows {
            rows: Vec::with_capacity(alloc, count)?,
            in_register: Vec::with_capacity(alloc, count)?,
        })
    }

    /// Forgets all events.
    pub(crate) fn clear(&mut self)
        ensures { self.new ≡ no_columns }
    {
        self.rows.clear();
        self.in_register.clear();
    }

    /// How many events there are.
    pub(crate) fn len(&self) -> usize
        ensures { result ≡ length self.now.events }
    {
        self.rows.len()
    }

    /// The event at `id`.
    pub(crate) fn event(&self, id: EvId) -> Event
        requires { id.0 < length self.now.events }
        ensures { slice_get self.now.events id.0 ≡ Some result }
    {
        self.rows[id.0 as usize].event.get()
    }

    /// The call of the operation that an event belongs to.
    pub(crate) fn call(&self, id: EvId) -> Option<EvId>
        requires { id.0 < length self.now.events }
        ensures { slice_get self.now.calls id.0 ≡ Some result }
    {
        self.rows[id.0 as usize].call.get()
    }

    /// The next event of the same register.
    pub(crate) fn next_in_register(&self, id: EvId) -> Option<EvId>
        requires { id.0 < length self.now.in_register }
        ensures { slice_get self.now.in_register id.0 ≡ Some result }
    {
        self.in_register[id.0 as usize].get()
    }

    /// The next event of the same process.
    pub(crate) fn next_in_process(&self, id: EvId) -> Option<EvId>
        requires { id.0 < length self.now.events }
        ensures { slice_get self.now.in_process id.0 ≡ Some result }
    {
        self.rows[id.0 as usize].in_process.get()
    }

    /// The next event of the same register and value.
    pub(crate) fn next_in_value(&self, id: EvId) -> Option<EvId>
        requires { id.0 < length self.now.events }
        ensures { slice_get self.now.in_value id.0 ≡ Some result }
    {
        self.rows[id.0 as usize].in_value.get()
    }

    /// The number of the entry of an event's register and value.
    pub(crate) fn number(&self, id: EvId) -> Option<u32>
        requires { id.0 < length self.now.events }
        ensures { slice_get self.now.numbers id.0 ≡ Some result }
    {
        self.rows[id.0 as usize].number.get()
    }

    /// One event more, without links.
    pub(crate) fn push(
        &mut self,
        event: &Event,
        call: Option<EvId>,
        number: Option<u32>,
    ) -> Result<(), AllocError>
        requires register { IfSome event.now.register (λ r. r.0 < NO_NUMBER) }
        requires call { IfSome call (λ id. id.0 < NO_NUMBER) }
        requires number { IfSome number (λ n. n < NO_NUMBER) }
        ensures { OnOk result (self.new ≡ with_event self.old event.now call number) }
    {
        self.rows.push(Row {
            event: PackedEvent::new(event),
            call: OptionalEvent::new(call),
            in_process: OptionalEvent::new(None),
            in_value: OptionalEvent::new(None),
            number: OptionalNumber::new(number),
        })?;
        self.in_register.push(OptionalEvent::new(None))?;
        Ok(())
    }

    /// The event belongs to no operation.
    pub(crate) fn forget_call(&mut self, id: EvId)
        requires { id.0 < length self.old.events }
        ensures { self.new ≡ with_calls self.old (set self.old.calls id.0 None) }
    {
        self.rows[id.0 as usize].call = OptionalEvent::new(None);
    }

    /// The event `next` comes after the event `id` in its register.
    pub(crate) fn link_in_register(&mut self, id: EvId, next: EvId)
        requires within { id.0 < length self.old.in_register }
        requires bound { next.0 < NO_NUMBER }
        ensures { self.new ≡ with_in_register self.old (set self.old.in_register id.0 (Some next)) }
    {
        self.in_register[id.0 as usize] = OptionalEvent::new(Some(next));
    }

    /// The event `next` comes after the event `id` in its process.
    pub(crate) fn link_in_process(&mut self, id: EvId, next: EvId)
        requires within { id.0 < length self.old.events }
        requires bound { next.0 < NO_NUMBER }
        ensures { self.new ≡ with_in_process self.old (set self.old.in_process id.0 (Some next)) }
    {
        self.rows[id.0 as usize].in_process = OptionalEvent::new(Some(next));
    }

    /// The event `next` comes after the event `id` among those of its register and value.
    pub(crate) fn link_in_value(&mut self, id: EvId, next: EvId)
        requires within { id.0 < length self.old.events }
        requires bound { next.0 < NO_NUMBER }
        ensures { self.new ≡ with_in_value self.old (set self.old.in_value id.0 (Some next)) }
    {
        self.rows[id.0 as usize].in_value = OptionalEvent::new(Some(next));
    }
}
