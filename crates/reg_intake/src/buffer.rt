//! The bytes that were pulled and whose lines aren't read yet, in a buffer that stays as it is. So bytes are
//! pulled to where they are held, and no room is cleared for them twice.
ghost use Rattle.std.specs.Prelude.{◌≡◌, ◌-◌, ◌^◌, ◌<◌, ◌≤◌, ◌++◌, ℕ, List};
ghost use Rattle.std.specs.Prelude.{[], false, drop, length, IfOk, IfErr};
ghost use Rattle.history_text.specs.declared.limits.TheConstants.{MAX_INPUT};
ghost use Rattle.reg_intake.specs.Pulls.{Gives, GetsNoMore, IsFurther};

use crate::pulls::Pulls;
use crate::refusal::Refusal;
use byte_ends::Source;
use std::alloc::Global;
use std::marker::Model;

/// How many bytes are pulled at once: as many as a pipe of Linux holds.
const PULL: usize = 65_536;

/// The bytes at the front of a buffer. Those after them mean nothing.
#[derive(Drop)]
pub(crate) struct Buffer {
    bytes: Vec<u8>,
    count: usize,
}

impl Model for Buffer {
    ghost use Rattle.std.specs.Prelude.{◌≤◌, ℕ, List, length, take};

    ghost Value = { List ℕ };

    ghost view = { λ b. take b.count b.bytes.items };

    ghost invariant = { λ b. b.count ≤ length b.bytes.items };
}

impl Buffer {
    /// No bytes.
    pub(crate) fn new(alloc: Global) -> Self
        ensures { result ≡ [] }
    {
        Buffer {
            bytes: Vec::new(alloc),
            count: 0,
        }
    }

    /// The bytes.
    pub(crate) fn bytes(&self) -> &[u8]
        ensures { result.now ≡ self.now }
    {
        &self.bytes[..self.count]
    }

    /// The bytes as a `Vec`.
    pub(crate) fn into_vec(self) -> Vec<u8>
        ensures { result.items ≡ self }
    {
        let mut bytes = self.bytes;
        bytes.truncate(self.count);
        bytes
    }

    /// Pulls once, and holds what came after the bytes.
    ///
    /// # Errors
    /// `NoRoom` if memory ran out before the pull, and those of [`Pulls::pull`].
    pub(crate) fn pull<S: Source>(
        &mut self,
        pulled: &mut Pulls,
        source: &mut S,
    ) -> Result<(), Refusal>
        requires within { pulled.old.total ≤ MAX_INPUT }
        requires not_ended { pulled.old.is_ended ≡ false }
        requires failures { S.failed source.old < 2 ^ 64 - 1 }
        ensures ok { IfOk result (λ _. (bytes : List ℕ)
            × Gives (S.left source.old) (S.left source.new) (S.failed source.old)
            (S.failed source.new) pulled.old pulled.new bytes × (self.new ≡ self.old ++ bytes)) }
        ensures further { IfOk result (λ _. IsFurther pulled.old pulled.new) }
        ensures err { IfErr result
            (GetsNoMore (S.left source.old) (S.left source.new) (S.failed source.old)
            (S.failed source.new) pulled.old pulled.new) }
    {
        if self.bytes.len() - self.count < PULL {
            self.bytes.resize(self.count + PULL, 0)?;
        }
        let room = &mut self.bytes[self.count..self.count + PULL];
        let count = pulled.pull(source, room)?;
        self.count += count;
        Ok(())
    }

    /// Forgets `count` bytes at the front.
    pub(crate) fn forget(&mut self, count: usize)
        requires { count ≤ length self.old }
        ensures { self.new ≡ drop count self.old }
    {
        self.bytes.copy_within(count..self.count, 0);
        self.count -= count;
    }
}
