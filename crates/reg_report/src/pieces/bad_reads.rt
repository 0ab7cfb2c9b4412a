//! The first reads of a register that aren't safe or regular.
ghost use Rattle.std.specs.Prelude.{◌≡◌, ◌≤◌, length, IfOk, IfSome};
ghost use Rattle.history_model.specs.Lamport.{HasSingleWriter, completed_reads};
ghost use Rattle.history_model.specs.Operations.{register_of};
ghost use Rattle.reg_lamport.specs.Reads.{IsReadList};
ghost use Rattle.reg_report.specs.Pieces.BadReads.{AreFirstBad, joint_reads, no_reads};

use history_model::{EvId, RegId};
use reg_arena::Arena;
use reg_lamport::{Level, ReadList, first_bad, reads};
use std::alloc::{AllocError, Global};

/// Of some reads of a register, the first that isn't safe, and the first that isn't regular.
#[derive(Clone, Copy, Debug, PartialEq, Eq)]
pub struct BadReads {
    pub safe: Option<EvId>,
    pub regular: Option<EvId>,
}

impl BadReads {
    /// Of no reads.
    pub fn none() -> BadReads
        ensures { result ≡ no_reads }
    {
        BadReads {
            safe: None,
            regular: None,
        }
    }

    /// With those of later reads.
    pub fn or(self, later: BadReads) -> BadReads
        ensures { result ≡ joint_reads self later }
    {
        BadReads {
            safe: self.safe.or(later.safe),
            regular: self.regular.or(later.regular),
        }
    }

    /// Of a register's reads numbered `from` up to but not including `to`.
    pub fn among(arena: &Arena, list: &ReadList, from: usize, to: usize) -> BadReads
        requires list { IsReadList arena.now list.now }
        requires writer { HasSingleWriter (register_of arena.now list.now.register) }
        requires part { (from ≤ to) × (to ≤ length list.now.entries) }
        ensures { AreFirstBad arena.now list.now.register from to result }
    {
        BadReads {
            safe: first_bad(arena, list, from, to, Level::Safe),
            regular: first_bad(arena, list, from, to, Level::Regular),
        }
    }

    /// Of a register's reads numbered `from` up to but not including `to`, which are listed unless the list
    /// that is kept is theirs. Their list is kept then.
    pub(crate) fn of_cut(
        alloc: Global,
        arena: &Arena,
        register: RegId,
        from: usize,
        to: usize,
        kept: &mut Option<ReadList>,
    ) -> Result<BadReads, AllocError>
        requires writer { HasSingleWriter (register_of arena.now register.0) }
        requires part { (from ≤ to) × (to ≤ length (completed_reads (register_of arena.now register.0))) }
        requires kept { IfSome kept.old (IsReadList arena.now) }
        ensures bad { IfOk result (AreFirstBad arena.now register.0 from to) }
        ensures kept { IfSome kept.new (IsReadList arena.now) }
    {
        let list = list_of(alloc, arena, register, kept.take())?;
        let bad = BadReads::among(arena, &list, from, to);
        *kept = Some(list);
        Ok(bad)
    }
}

/// The completed reads of this register: the list that was kept if it is theirs. Another list is dropped
/// before they are listed.
fn list_of(
    alloc: Global,
    arena: &Arena,
    register: RegId,
    kept: Option<ReadList>,
) -> Result<ReadList, AllocError>
    requires { IfSome kept (IsReadList arena.now) }
    ensures { IfOk result (λ list. (list.register ≡ register.0) × IsReadList arena.now list) }
{
    if let Some(list) = kept {
        if list.register() == register {
            return Ok(list);
        }
    }
    reads(alloc, arena, register)
}
