//! How many completed reads each register with a single writer has.
ghost use Rattle.std.specs.Prelude.{◌≡◌, ◌<◌, ◌^◌, [], length, replicate, set, slice_get, IfOk, Some};
ghost use Rattle.reg_lamport.specs.Counts.{AreCounted, AreReadCounts, count_shown, counted};
ghost use Rattle.reg_lamport.specs.Counts.{is_reply_to_read, nothing_counted, with_write};
ghost use Rattle.reg_lamport.specs.declared.counts.ReadCount.{ReadCount as ACount};

use crate::writer::begins_write;
use history_model::{EvId, Event, RegId, What};
use history_text::OpKind;
use reg_arena::Arena;
use std::alloc::{AllocError, Global};
use std::marker::Model;

/// Who called the writes of a register that were met.
#[derive(Clone, Copy, Debug, PartialEq, Eq)]
pub(crate) enum Writer {
    Nobody,
    One(u32),
    Several,
}

impl Writer {
    /// With a write that this process called.
    fn with_write(self, process: u32) -> Writer
        ensures { result ≡ with_write self process }
    {
        match self {
            Writer::Nobody => Writer::One(process),
            Writer::One(known) => {
                if known == process {
                    self
                } else {
                    Writer::Several
                }
            }
            Writer::Several => Writer::Several,
        }
    }
}

/// What is kept of one register: who writes it, and how many completed reads it has.
#[derive(Clone, Copy, Debug, PartialEq, Eq)]
pub(crate) struct ReadCount {
    pub(crate) writer: Writer,
    pub(crate) reads: u32,
}

const _: () = prove!(size_of::<ReadCount>() == 12);

impl ReadCount {
    /// With one more event of the register. `is_write` says whether it begins a write.
    fn and(self, event: &Event, is_write: bool) -> ReadCount
        requires { self.reads < 2 ^ 31 }
        ensures { result ≡ counted is_write event.now self }
    {
        let writer = if is_write {
            self.writer.with_write(event.process)
        } else {
            self.writer
        };
        let reads = if ends_read(event.what) {
            self.reads + 1
        } else {
            self.reads
        };
        ReadCount { writer, reads }
    }

    /// The completed reads, if there is a single writer.
    fn of_single_writer(self) -> Option<u32>
        ensures { result ≡ count_shown self }
    {
        match self.writer {
            Writer::Nobody | Writer::One(_) => Some(self.reads),
            Writer::Several => None,
        }
    }
}

/// How many completed reads each register has that has a single writer, by number.
#[derive(Drop)]
pub struct ReadCounts {
    counts: Vec<ReadCount>,
}

impl Model for ReadCounts {
    ghost use Rattle.std.specs.Prelude.{ℕ, List, Option, map};
    ghost use Rattle.reg_lamport.specs.Counts.{count_shown};

    ghost Value = { List (Option ℕ) };

    ghost view = { λ a. map count_shown a.counts.items };
}

impl ReadCounts {
    /// Of no registers.
    pub fn none(alloc: Global) -> Self
        ensures { result ≡ [] }
    {
        ReadCounts {
            counts: Vec::new(alloc),
        }
    }

    /// How many completed reads this register has, if it has a single writer.
    pub fn of(&self, register: RegId) -> Option<u32>
        requires { register.0 < length self.now }
        ensures { slice_get self.now register.0 ≡ Some result }
    {
        self.counts[register.0 as usize].of_single_writer()
    }
}

/// The counts of this many registers before the first event.
fn none_counted(alloc: Global, registers: u32) -> Result<Vec<ReadCount>, AllocError>
    ensures { IfOk result (λ counts. counts.items ≡ replicate registers nothing_counted) }
{
    let mut counts = Vec::new(alloc);
    counts.resize(
        registers as usize,
        ReadCount {
            writer: Writer::Nobody,
            reads: 0,
        },
    )?;
    Ok(counts)
}

/// Whether an event is the reply to a read: each completed read has one.
fn ends_read(what: What) -> bool
    ensures { result ≡ is_reply_to_read what }
{
    match what {
        What::Reply(OpKind::ReadOp) => true,
        What::Reply(OpKind::WriteOp) | What::Call(_) | What::Fail(_) | What::Crash => false,
    }
}

/// Counts an event for its register.
fn add(counts: &mut Vec<ReadCount>, register: RegId, event: &Event, is_write: bool)
    requires within { register.0 < length counts.old.items }
    requires room { (count : ACount) → slice_get counts.old.items register.0 ≡ Some count
        → count.reads < 2 ^ 31 }
    ensures { (count : ACount) → slice_get counts.old.items register.0 ≡ Some count
        → counts.new.items ≡ set counts.old.items register.0 (counted is_write event.now count) }
{
    let number = register.0 as usize;
    let count = counts[number];
    counts[number] = count.and(event, is_write);
}

/// The counts of all registers, from all events in their order.
fn counted_events(alloc: Global, arena: &Arena) -> Result<Vec<ReadCount>, AllocError>
    ensures { IfOk result (λ counts. AreCounted arena.now counts.items) }
{
    let mut counts = none_counted(alloc, arena.register_count())?;
    for number in 0..arena.event_count() {
        let id = EvId(number);
        let event = arena.event(id);
        if let Some(register) = event.register {
            add(
                &mut counts,
                register,
                &event,
                begins_write(arena, id, &event),
            );
        }
    }
    Ok(counts)
}

/// Counts the completed reads of each register with a single writer, in one pass over all events.
///
/// # Errors
/// If memory ran out; the arena is as before.
pub fn read_counts(alloc: Global, arena: &Arena) -> Result<ReadCounts, AllocError>
    ensures { IfOk result (AreReadCounts arena.now) }
{
    Ok(ReadCounts {
        counts: counted_events(alloc, arena)?,
    })
}
