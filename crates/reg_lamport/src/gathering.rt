//! One pass over the calls of a register: the completed reads met so far, and the two writes called last.
ghost use Rattle.std.specs.Prelude.{◌≡◌, map, IfOk};
ghost use Rattle.reg_lamport.specs.Gathering.{call_met, nothing_met, read_met, settled, write_met};

use history_model::{EvId, Op, Oper, RegId};
use history_text::OpKind;
use std::alloc::{AllocError, Global};
use std::marker::Model;

/// What is kept of a completed read. Its last two fields speak of registers with a single writer.
#[derive(Clone, Copy, Debug, PartialEq, Eq)]
pub(crate) struct ReadEntry {
    /// The event of its call.
    pub(crate) read: EvId,
    /// The time of its reply.
    pub(crate) reply: u32,
    /// The last write that precedes it.
    pub(crate) old_write: Oper,
    /// Whether a write overlaps it, pending or not. Only `safe` asks.
    pub(crate) is_overlapped: bool,
}

impl ReadEntry {
    /// The read after the call of a write at a time, which overlaps it unless it has replied.
    fn settled_by(self, time: u32) -> Self
        ensures { result ≡ settled time self }
    {
        ReadEntry {
            is_overlapped: self.is_overlapped || time < self.reply,
            ..self
        }
    }
}

/// What a pass has met so far.
#[derive(Drop)]
pub(crate) struct Gathering {
    entries: Vec<ReadEntry>,
    /// How many reads were called before the last write: a later write
    /// overlaps one of these only if the last does.
    settled: usize,
    /// The write called last, at first the initial one.
    last: Oper,
    /// The time of its reply.
    last_reply: u32,
    /// The write called before it, at first the initial one too.
    before_last: Oper,
}

impl Model for Gathering {
    ghost use Rattle.std.specs.Prelude.{◌≤◌, length};
    ghost use Rattle.reg_lamport.specs.Gathering.{Gathered};

    ghost Value = { Gathered };

    ghost view = { λ a. record {
      entries = a.entries.items;
      settled = a.settled;
      last = a.last;
      last_reply = a.last_reply;
      before_last = a.before_last;
    } };

    ghost invariant = { λ a. a.settled ≤ length a.entries.items };
}

impl Gathering {
    /// Before the first call of a register.
    pub(crate) fn new(alloc: Global, register: RegId) -> Self
        ensures { result ≡ nothing_met register }
    {
        Gathering {
            entries: Vec::new(alloc),
            settled: 0,
            last: Oper::Initial(register),
            last_reply: 1,
            before_last: Oper::Initial(register),
        }
    }

    /// Meets a call of the register. `end` is the time of a missing reply.
    pub(crate) fn with_call(self, id: EvId, op: &Op, end: u32) -> Result<Self, AllocError>
        ensures { IfOk result (λ g. g ≡ call_met end self id op.now) }
    {
        match (op.kind, op.reply) {
            (OpKind::WriteOp, reply) => Ok(self.with_write(id, op.call, reply.unwrap_or(end))),
            (OpKind::ReadOp, Some(reply)) => self.with_read(id, op.call, reply),
            (OpKind::ReadOp, None) => Ok(self),
        }
    }

    /// Meets a write.
    fn with_write(self, id: EvId, call: u32, reply: u32) -> Self
        ensures { result ≡ write_met self id call reply }
    {
        let Gathering {
            mut entries,
            settled,
            last,
            ..
        } = self;
        settle(&mut entries[settled..], call);
        Gathering {
            settled: entries.len(),
            entries,
            last: Oper::Called(id),
            last_reply: reply,
            before_last: last,
        }
    }

    /// Meets a completed read.
    fn with_read(mut self, id: EvId, call: u32, reply: u32) -> Result<Self, AllocError>
        ensures { IfOk result (λ g. g ≡ read_met self id call reply) }
    {
        let is_overlapped = call <= self.last_reply;
        let old_write = if is_overlapped {
            self.before_last
        } else {
            self.last
        };
        self.entries.push(ReadEntry {
            read: id,
            reply,
            old_write,
            is_overlapped,
        })?;
        Ok(self)
    }

    /// The reads.
    pub(crate) fn into_entries(self) -> Vec<ReadEntry>
        ensures { result.items ≡ self.entries }
    {
        self.entries
    }
}

/// Tells reads of the call of a write at a time.
fn settle(entries: &mut [ReadEntry], time: u32)
    ensures { entries.new ≡ map (settled time) entries.old }
{
    for entry in entries.iter_mut() {
        *entry = entry.settled_by(time);
    }
}
