//! What bytes come from, and what they go to.
ghost use Rattle.std.specs.Prelude.{◌≡◌, ◌-◌, ◌^◌, ◌<◌, ◌≤◌, ℕ, List, Option, None, length, IfOk, OnOk};
ghost use Rattle.std.specs.Io.KnownBytes.{Keeps, ReadConsumes, WriteAppends};
ghost use Rattle.byte_ends.specs.Ends.{Counts};

/// A pull, a push or a flush failed.
#[derive(Clone, Copy, Debug, PartialEq, Eq)]
pub struct IoFail;

/// What bytes come from. It counts its failures, and contracts see the
/// bytes that it has left, if it tells them.
pub trait Source {
    // The bytes that it has left, if it tells them.
    ghost left: { Self → Option (List ℕ) } = { λ _. None };

    // How many times it has failed.
    ghost failed: { Self → ℕ };

    /// Takes some of the bytes that are left to the front of the slice, and says how many. None,
    /// into a slice that isn't empty, is the end.
    ///
    /// # Errors
    /// `IoFail` if no byte could be had; then none is lost, and the failures are one more.
    fn pull(&mut self, into: &mut [u8]) -> Result<usize, IoFail>
        requires { failed self.old < 2 ^ 64 - 1 }
        ensures bound { IfOk result (λ count. count ≤ length into.new) }
        ensures bytes { ReadConsumes (left self.old) (left self.new) result into.new }
        ensures failures { Counts (failed self.old) (failed self.new) result };

    /// How many pulls have failed.
    fn failures(&self) -> u64
        ensures { result ≡ failed self.now };
}

/// What bytes go to. It counts its failures, and contracts see the bytes that it has taken, if it tells them.
pub trait Sink {
    // The bytes that it has taken, if it tells them.
    ghost taken: { Self → Option (List ℕ) } = { λ _. None };

    // How many times it has failed.
    ghost failed: { Self → ℕ };

    // A flush came after the last push, if it tells that.
    ghost is_flushed: { Self → Type 0 } = { λ _. Unit {0} };

    /// Takes a beginning of the bytes, and says how many: at least one if there is one.
    ///
    /// # Errors
    /// `IoFail` if no byte could be taken; then none is taken, and the failures are one more.
    fn push(&mut self, bytes: &[u8]) -> Result<usize, IoFail>
        requires { failed self.old < 2 ^ 64 - 1 }
        ensures bound { IfOk result (λ count. count ≤ length bytes.now) }
        ensures some { IfOk result (λ count. 0 < length bytes.now → 0 < count) }
        ensures bytes { WriteAppends (taken self.old) (taken self.new) result bytes.now }
        ensures failures { Counts (failed self.old) (failed self.new) result };

    /// Passes on what it may still hold of the bytes that it has taken.
    ///
    /// # Errors
    /// `IoFail` if that failed; then the failures are one more.
    fn flush(&mut self) -> Result<(), IoFail>
        requires { failed self.old < 2 ^ 64 - 1 }
        ensures bytes { Keeps (taken self.old) (taken self.new) }
        ensures flushed { OnOk result (is_flushed self.new) }
        ensures failures { Counts (failed self.old) (failed self.new) result };

    /// How many pushes and flushes have failed.
    fn failures(&self) -> u64
        ensures { result ≡ failed self.now };
}
