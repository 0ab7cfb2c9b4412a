//! A sink over memory, which takes its bytes in pieces and fails when it is full.
ghost use Rattle.std.specs.Prelude.{◌≡◌, ◌<◌, ◌≤◌, ◌-◌, ◌^◌, ◌↔◌, [], false, min};
ghost use Rattle.std.specs.Prelude.{Some, IfOk, IsErr, IsTrue, OnOk, length};
ghost use Rattle.std.specs.Io.KnownBytes.{Keeps, WriteAppends};
ghost use Rattle.byte_ends.specs.Ends.{Counts};

use crate::ends::{IoFail, Sink};
use std::alloc::{AllocError, Global};
use std::marker::Model;

/// A fixed number of bytes of memory as a sink, which fails when it is full, and at a flush if it is told to.
#[derive(Drop)]
pub struct MemSink {
    buffer: Vec<u8>,
    used: usize,
    step: usize,
    flush_fails: bool,
    flushed: bool,
    failures: u64,
}

impl Model for MemSink {
    ghost use Rattle.std.specs.Prelude.{◌<◌, ◌≤◌, length, take};
    ghost use Rattle.byte_ends.specs.Memory.{MemoryTaken};

    ghost Value = { MemoryTaken };

    ghost view = { λ s. record {
      taken = take s.used s.buffer.items;
      room = length s.buffer.items;
      step = s.step;
      flush_fails = s.flush_fails;
      flushed = s.flushed;
      failures = s.failures;
    } };

    ghost invariant = { λ s. (s.used ≤ length s.buffer.items) × (0 < s.step) };
}

impl MemSink {
    /// A sink with memory for `room` bytes, which takes up to `step` of them at a push,
    /// and fails at each flush if `flush_fails`.
    ///
    /// # Errors
    /// `AllocError` if memory ran out.
    pub fn new(
        alloc: Global,
        room: usize,
        step: usize,
        flush_fails: bool,
    ) -> Result<MemSink, AllocError>
        requires { 0 < step }
        ensures { IfOk result (λ sink. sink ≡ record {
          taken = [];
          room = room;
          step = step;
          flush_fails = flush_fails;
          flushed = false;
          failures = 0;
        }) }
    {
        Ok(MemSink {
            buffer: vec![in alloc; 0u8; room]?,
            used: 0,
            step,
            flush_fails,
            flushed: false,
            failures: 0,
        })
    }

    /// The bytes that it took, in the order in which they came.
    pub fn taken(&self) -> &[u8]
        ensures { result.now ≡ self.now.taken }
    {
        &self.buffer[..self.used]
    }
}

impl Sink for MemSink {
    ghost taken = { λ s. Some s.taken };

    ghost failed = { λ s. s.failures };

    ghost is_flushed = { λ s. IsTrue s.flushed };

    fn push(&mut self, bytes: &[u8]) -> Result<usize, IoFail>
        requires { self.old.failures < 2 ^ 64 - 1 }
        ensures bound { IfOk result (λ count. count ≤ length bytes.now) }
        ensures some { IfOk result (λ count. 0 < length bytes.now → 0 < count) }
        ensures bytes { WriteAppends (Some self.old.taken) (Some self.new.taken) result bytes.now }
        ensures failures { Counts self.old.failures self.new.failures result }
        ensures told { IsErr result ↔ ((0 < length bytes.now) × (self.old.room ≤ length self.old.taken)) }
        ensures much { IfOk result (λ count.
            count ≡ min self.old.step (min (length bytes.now) (self.old.room - length self.old.taken))) }
        ensures unflushed { IfOk result (λ _. self.new.flushed ≡ false) }
        ensures kept { IsErr result → self.new.flushed ≡ self.old.flushed }
        ensures stays { (self.new.room ≡ self.old.room) × (self.new.step ≡ self.old.step)
            × (self.new.flush_fails ≡ self.old.flush_fails) }
    {
        let free = self.buffer.len() - self.used;
        let count = self.step.min(bytes.len()).min(free);
        if count == 0 && !bytes.is_empty() {
            self.failures += 1;
            return Err(IoFail);
        }
        let from = self.used;
        self.buffer[from..from + count].copy_from_slice(&bytes[..count]);
        self.used = from + count;
        self.flushed = false;
        Ok(count)
    }

    fn flush(&mut self) -> Result<(), IoFail>
        requires { self.old.failures < 2 ^ 64 - 1 }
        ensures bytes { Keeps (Some self.old.taken) (Some self.new.taken) }
        ensures flushed { OnOk result (IsTrue self.new.flushed) }
        ensures kept { IsErr result → self.new.flushed ≡ self.old.flushed }
        ensures failures { Counts self.old.failures self.new.failures result }
        ensures told { IsErr result ↔ IsTrue self.old.flush_fails }
        ensures stays { (self.new.room ≡ self.old.room) × (self.new.step ≡ self.old.step)
            × (self.new.flush_fails ≡ self.old.flush_fails) }
    {
        if self.flush_fails {
            self.failures += 1;
            return Err(IoFail);
        }
        self.flushed = true;
        Ok(())
    }

    fn failures(&self) -> u64 {
        self.failures
    }
}
