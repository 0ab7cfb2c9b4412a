//! The bytes that were pulled and whose lines aren't read yet.
//!
//! While the source may have more, what comes after the last line feed is held back, since it may go on.
ghost use Rattle.std.specs.Prelude.{◌≡◌, ◌+◌, ◌-◌, ◌^◌, ◌<◌, ◌≤◌, ℕ, List, []};
ghost use Rattle.std.specs.Prelude.{true, false, flat_map, length, IfOk, IfErr};
ghost use Rattle.history_text.specs.declared.limits.TheConstants.{MAX_INPUT};
ghost use Rattle.reg_intake.specs.Intake.{IsHeld, IsReadOf};
ghost use Rattle.reg_intake.specs.Pulls.{Gives, GetsNoMore, IsFurther, StopsAt, nothing};

use crate::buffer::Buffer;
use crate::pulls::Pulls;
use crate::refusal::Refusal;
use byte_ends::Source;
use history_text::{LineEvent, LineFault, read_spans, whole_lines};
use std::alloc::{AllocError, Global};
use std::thread::Threads;

/// The bytes that are held, which come after those whose lines were read.
#[derive(Drop)]
pub(crate) struct Intake {
    held: Buffer,
    /// The number of the line at the front of what is held.
    next_line: u32,
    pulled: Pulls,
}

impl Intake {
    /// Nothing, before the first pull.
    pub(crate) fn new(alloc: Global) -> Self
        ensures held { result.held ≡ [] }
        ensures line { result.next_line ≡ 1 }
        ensures pulled { result.pulled ≡ nothing }
    {
        Intake {
            held: Buffer::new(alloc),
            next_line: 1,
            pulled: Pulls::nothing(),
        }
    }

    /// The bytes that are held.
    pub(crate) fn held(&self) -> &[u8]
        ensures { result.now ≡ self.now.held }
    {
        self.held.bytes()
    }

    /// Whether the source has no more.
    pub(crate) fn is_ended(&self) -> bool
        ensures { result ≡ self.now.pulled.is_ended }
    {
        self.pulled.is_ended()
    }

    /// Pulls until `enough` bytes are held, or the source has no more.
    ///
    /// # Errors
    /// `InputFailed` if a pull failed, `TooLong` if there are more bytes than the limit of an input, and
    /// `NoRoom` if memory ran out before a pull.
    pub(crate) fn fill<S: Source>(&mut self, source: &mut S, enough: usize) -> Result<(), Refusal>
        requires within { self.old.pulled.total ≤ MAX_INPUT }
        requires failures { S.failed source.old < 2 ^ 64 - 1 }
        ensures ok { IfOk result (λ _. (bytes : List ℕ)
            × IsHeld (S.left source.old) (S.left source.new) (S.failed source.old)
            (S.failed source.new) self.old self.new bytes) }
        ensures further { IfOk result (λ _. self.old.pulled.is_ended ≡ false → length self.old.held < enough
            → IsFurther self.old.pulled self.new.pulled) }
        ensures err { IfErr result
            (GetsNoMore (S.left source.old) (S.left source.new) (S.failed source.old)
            (S.failed source.new) self.old.pulled self.new.pulled) }
    {
        while !self.pulled.is_ended() && self.held().len() < enough {
            self.held.pull(&mut self.pulled, source)?;
        }
        Ok(())
    }

    /// Pulls all that the source has left and drops it.
    ///
    /// # Errors
    /// `InputFailed` or `TooLong`.
    pub(crate) fn drop_rest<S: Source>(&mut self, source: &mut S) -> Result<(), Refusal>
        requires within { self.old.pulled.total ≤ MAX_INPUT }
        requires failures { S.failed source.old < 2 ^ 64 - 1 }
        ensures ok { IfOk result (λ _. (bytes : List ℕ)
            × Gives (S.left source.old) (S.left source.new) (S.failed source.old)
            (S.failed source.new) self.old.pulled self.new.pulled bytes) }
        ensures end { IfOk result (λ _. self.new.pulled.is_ended ≡ true) }
        ensures err { IfErr result
            (StopsAt (S.left source.old) (S.left source.new) (S.failed source.old)
            (S.failed source.new) self.old.pulled) }
    {
        self.pulled.drop_rest(source)
    }

    /// Reads the whole lines that are held, by several threads, and forgets their bytes. Gives what they say,
    /// in parts, in order.
    ///
    /// # Errors
    /// `AllocError` if memory ran out.
    pub(crate) fn read<T: Threads + Sync>(
        &mut self,
        rt: &T,
        alloc: Global,
    ) -> Result<Vec<Vec<Result<LineEvent, LineFault>>>, AllocError>
        requires { self.old.next_line + length self.old.held ≤ MAX_INPUT + 1 }
        ensures read { IfOk result (λ parts.
            IsReadOf self.old self.new (flat_map (λ part. part.items) parts.items)) }
        ensures pulled { self.new.pulled ≡ self.old.pulled }
    {
        let whole = whole_lines(alloc, self.held(), self.next_line, self.is_ended())?;
        let parts = read_spans(rt, alloc, self.held(), &whole.spans)?;
        self.next_line = whole.next_line;
        self.held.forget(whole.byte_count);
        Ok(parts)
    }
}
