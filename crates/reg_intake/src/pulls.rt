//! The bytes of a source, a piece at a time, and how many they are.
ghost use Rattle.std.specs.Prelude.{◌≡◌, ◌-◌, ◌^◌, ◌<◌, ◌≤◌, ℕ, List, true, false, length, take, IfOk, IfErr};
ghost use Rattle.history_text.specs.declared.limits.TheConstants.{MAX_INPUT};
ghost use Rattle.reg_intake.specs.Pulls.{Gives, IsFurther, StopsAt, nothing};

use crate::refusal::Refusal;
use byte_ends::Source;
use history_text::MAX_INPUT;

/// How many bytes are pulled at once if they are to be dropped. They lie on the stack, of which a caller may
/// have little.
const PIECE: usize = 16_384;

/// How many bytes were pulled, and whether the source has no more.
#[derive(Clone, Copy)]
pub(crate) struct Pulls {
    total: usize,
    is_ended: bool,
}

impl Pulls {
    /// No bytes, of a source that may have some.
    pub(crate) fn nothing() -> Self
        ensures { result ≡ nothing }
    {
        Pulls {
            total: 0,
            is_ended: false,
        }
    }

    /// Whether the source has no more.
    pub(crate) fn is_ended(self) -> bool
        ensures { result ≡ self.is_ended }
    {
        self.is_ended
    }

    /// Pulls the next bytes to the front of a piece, and says how many they are. None is the end.
    ///
    /// # Errors
    /// `InputFailed` if the pull failed, and `TooLong` if there are more bytes than the limit of an input.
    pub(crate) fn pull<S: Source>(
        &mut self,
        source: &mut S,
        piece: &mut [u8],
    ) -> Result<usize, Refusal>
        requires within { self.old.total ≤ MAX_INPUT }
        requires not_ended { self.old.is_ended ≡ false }
        requires room { 0 < length piece.old }
        requires failures { S.failed source.old < 2 ^ 64 - 1 }
        ensures bound { IfOk result (λ count. count ≤ length piece.new) }
        ensures ok { IfOk result (λ count.
            Gives (S.left source.old) (S.left source.new) (S.failed source.old)
            (S.failed source.new) self.old self.new (take count piece.new)) }
        ensures further { IfOk result (λ _. IsFurther self.old self.new) }
        ensures err { IfErr result
            (StopsAt (S.left source.old) (S.left source.new) (S.failed source.old)
            (S.failed source.new) self.old) }
    {
        match source.pull(piece) {
            Err(_) => Err(Refusal::InputFailed),
            Ok(count) if count > MAX_INPUT - self.total => Err(Refusal::TooLong),
            Ok(count) => {
                self.total += count;
                self.is_ended = count == 0;
                Ok(count)
            }
        }
    }

    /// Pulls all that the source has left and drops it, so that too long an input is known as such.
    ///
    /// # Errors
    /// Those of `pull`.
    // Inlined, its piece would lie on the caller's stack for good.
    #[inline(never)]
    pub(crate) fn drop_rest<S: Source>(&mut self, source: &mut S) -> Result<(), Refusal>
        requires within { self.old.total ≤ MAX_INPUT }
        requires failures { S.failed source.old < 2 ^ 64 - 1 }
        ensures ok { IfOk result (λ _. (bytes : List ℕ)
            × Gives (S.left source.old) (S.left source.new) (S.failed source.old)
            (S.failed source.new) self.old self.new bytes) }
        ensures end { IfOk result (λ _. self.new.is_ended ≡ true) }
        ensures err { IfErr result
            (StopsAt (S.left source.old) (S.left source.new) (S.failed source.old)
            (S.failed source.new) self.old) }
    {
        let mut piece = [0u8; PIECE];
        while !self.is_ended {
            self.pull(source, &mut piece)?;
        }
        Ok(())
    }
}
