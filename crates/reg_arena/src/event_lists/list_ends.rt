//! Where a threaded list begins and ends.
ghost use Rattle.std.specs.Prelude.{◌≡◌, Some, None};
ghost use Rattle.reg_arena.specs.Lists.EventLists.{entry_alone, entry_with, later, read_with, reply_with};
ghost use Rattle.reg_arena.specs.Lists.EventLists.{with_call, with_fail, write_called, write_kept};
ghost use Rattle.reg_arena.specs.Lists.EventLists.{write_with};

use history_model::{EvId, Event, What};
use history_text::OpKind;

/// The first and the last event of a list.
#[derive(Clone, Copy, Debug)]
pub struct Ends {
    /// The first.
    pub first: EvId,
    /// The last.
    pub last: EvId,
}

/// The write of a value, as far as it is known.
#[derive(Clone, Copy, Debug)]
pub enum Write {
    /// There is none so far.
    Unwritten,
    /// The write has this call.
    Written(EvId),
    /// The write with this call failed.
    Failed(EvId),
}

impl Write {
    /// The call of the write, failed or not.
    pub(crate) fn called(self) -> Option<EvId>
        ensures { result ≡ write_called self }
    {
        match self {
            Write::Unwritten => None,
            Write::Written(id) | Write::Failed(id) => Some(id),
        }
    }

    /// The call of a write that didn't fail.
    pub(crate) fn kept(self) -> Option<EvId>
        ensures { result ≡ write_kept self }
    {
        match self {
            Write::Written(id) => Some(id),
            Write::Unwritten | Write::Failed(_) => None,
        }
    }

    /// After the event `id`, whose call is the event `call`.
    fn with(self, what: What, id: EvId, call: EvId) -> Self
        ensures { result ≡ write_with self what id call }
    {
        match what {
            What::Call(_) => self.with_call(id),
            What::Reply(_) | What::Crash => self,
            What::Fail(_) => self.with_fail(call),
        }
    }

    /// After a call of a write: the first one is kept.
    fn with_call(self, id: EvId) -> Self
        ensures { result ≡ with_call self id }
    {
        match self {
            Write::Unwritten => Write::Written(id),
            Write::Written(_) | Write::Failed(_) => self,
        }
    }

    /// After a fail of the write with this call.
    fn with_fail(self, call: EvId) -> Self
        ensures { result ≡ with_fail self call }
    {
        match self {
            Write::Written(id) if id.0 == call.0 => Write::Failed(id),
            _ => self,
        }
    }
}

/// The list of a register and value, and what is asked of it at constant cost.
#[derive(Clone, Copy, Debug)]
pub struct Entry {
    /// Its first and last event.
    pub ends: Ends,
    /// The write of the value.
    pub write: Write,
    /// The first reply of the list.
    pub first_reply: Option<EvId>,
    /// The last call of a read that has its reply in the list.
    pub last_read: Option<EvId>,
}

impl Entry {
    /// The list that begins with the event `id`, whose call is the event `call`.
    pub(crate) fn new(event: &Event, id: EvId, call: EvId) -> Self
        ensures { result ≡ entry_alone event.now id call }
    {
        Entry {
            ends: Ends {
                first: id,
                last: id,
            },
            write: Write::Unwritten.with(event.what, id, call),
            first_reply: reply_with(None, event.what, id),
            last_read: read_with(None, event.what, call),
        }
    }

    /// The list with the event `id` after it, whose call is the event `call`.
    pub(crate) fn with(self, event: &Event, id: EvId, call: EvId) -> Self
        ensures { result ≡ entry_with self event.now id call }
    {
        Entry {
            ends: Ends {
                first: self.ends.first,
                last: id,
            },
            write: self.write.with(event.what, id, call),
            first_reply: reply_with(self.first_reply, event.what, id),
            last_read: read_with(self.last_read, event.what, call),
        }
    }

    /// The last call of the write, if it didn't fail, and of the completed reads.
    pub fn last_call(self) -> Option<EvId>
        ensures { result ≡ later (write_kept self.write) self.last_read }
    {
        later(self.write.kept(), self.last_read)
    }
}

/// The first reply of a list after the event `id`.
fn reply_with(first: Option<EvId>, what: What, id: EvId) -> Option<EvId>
    ensures { result ≡ reply_with first what id }
{
    match what {
        What::Reply(_) => first.or(Some(id)),
        What::Call(_) | What::Fail(_) | What::Crash => first,
    }
}

/// The last call of the completed reads of a list after an event with this call.
fn read_with(last: Option<EvId>, what: What, call: EvId) -> Option<EvId>
    ensures { result ≡ read_with last what call }
{
    match what {
        What::Reply(OpKind::ReadOp) => later(last, Some(call)),
        What::Reply(OpKind::WriteOp) | What::Call(_) | What::Fail(_) | What::Crash => last,
    }
}

/// The later of two events, if there are two.
fn later(one: Option<EvId>, other: Option<EvId>) -> Option<EvId>
    ensures { result ≡ later one other }
{
    match (one, other) {
        (None, _) => other,
        (Some(_), None) => one,
        (Some(a), Some(b)) => Some(if a.0 < b.0 { b } else { a }),
    }
}
