//! A source over memory, which gives its bytes in pieces and fails if it is told to.
ghost use Rattle.std.specs.Prelude.{◌≡◌, ◌<◌, ◌≤◌, ◌-◌, ◌^◌, ◌↔◌, min, Some, IfOk, IsErr, length, option_map};
ghost use Rattle.std.specs.Io.KnownBytes.{ReadConsumes};
ghost use Rattle.byte_ends.specs.Ends.{Counts};

use crate::ends::{IoFail, Source};
use std::marker::Model;

/// A slice as a source, which gives it in pieces, and fails at one pull if it is told to.
#[derive(Drop)]
pub struct MemSource<'a> {
    rest: &'a [u8],
    step: usize,
    fails_in: Option<u64>,
    failures: u64,
}

impl<'a> Model for MemSource<'a> {
    ghost use Rattle.std.specs.Prelude.{◌<◌};
    ghost use Rattle.byte_ends.specs.Memory.{MemoryLeft};

    ghost Value = { MemoryLeft };

    ghost view = { λ s. record {
      left = s.rest.now;
      step = s.step;
      fails_in = s.fails_in;
      failures = s.failures;
    } };

    ghost invariant = { λ s. 0 < s.step };
}

impl<'a> MemSource<'a> {
    /// A source of these bytes, which gives up to `step` of them at a pull, and fails at
    /// the pull `fail_at` alone, counted from 1.
    pub fn new(bytes: &'a [u8], step: usize, fail_at: Option<u64>) -> MemSource<'a>
        requires { 0 < step }
        ensures { result ≡ record { left = bytes.entry.now; step = step; fails_in = fail_at; failures = 0 } }
    {
        MemSource {
            rest: bytes,
            step,
            fails_in: fail_at,
            failures: 0,
        }
    }
}

impl Source for MemSource<'_> {
    ghost left = { λ s. Some s.left };

    ghost failed = { λ s. s.failures };

    fn pull(&mut self, into: &mut [u8]) -> Result<usize, IoFail>
        requires { self.old.failures < 2 ^ 64 - 1 }
        ensures bound { IfOk result (λ count. count ≤ length into.new) }
        ensures bytes { ReadConsumes (Some self.old.left) (Some self.new.left) result into.new }
        ensures failures { Counts self.old.failures self.new.failures result }
        ensures told { IsErr result ↔ (self.old.fails_in ≡ Some 1) }
        ensures much { IfOk result (λ count.
            count ≡ min self.old.step (min (length into.new) (length self.old.left))) }
        ensures nearer { self.new.fails_in ≡ option_map (λ pulls. pulls - 1) self.old.fails_in }
        ensures stays { self.new.step ≡ self.old.step }
    {
        let fails = self.fails_in == Some(1);
        self.fails_in = self.fails_in.map(|pulls| pulls.saturating_sub(1));
        if fails {
            self.failures += 1;
            return Err(IoFail);
        }
        let count = self.step.min(into.len()).min(self.rest.len());
        let (now, later) = self.rest.split_at(count);
        into[..count].copy_from_slice(now);
        self.rest = later;
        Ok(count)
    }

    fn failures(&self) -> u64 {
        self.failures
    }
}
