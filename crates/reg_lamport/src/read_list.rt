//! The completed reads of a register.
ghost use Rattle.std.specs.Prelude.{◌≡◌, ◌↔◌, [], length, IfOk, IsTrue};
ghost use Rattle.reg_lamport.specs.Reads.{IsReadList};

use crate::gathering::{Gathering, ReadEntry};
use history_model::{Oper, RegId};
use reg_arena::Arena;
use std::alloc::{AllocError, Global};
use std::marker::Model;

/// The completed reads of a register by call, each with its old write.
#[derive(Drop)]
pub struct ReadList {
    pub(crate) register: RegId,
    pub(crate) entries: Vec<ReadEntry>,
}

impl Model for ReadList {
    ghost use Rattle.reg_lamport.specs.Reads.{ListedReads};

    ghost Value = { ListedReads };

    ghost view = { λ a. record { register = a.register.0; entries = a.entries.items } };
}

impl ReadList {
    /// The register whose reads are listed.
    pub fn register(&self) -> RegId
        ensures { result.0 ≡ self.now.register }
    {
        self.register
    }

    /// How many reads there are.
    pub fn len(&self) -> usize
        ensures { result ≡ length self.now.entries }
    {
        self.entries.len()
    }

    /// Whether there is none.
    pub fn is_empty(&self) -> bool
        ensures { IsTrue result ↔ (self.now.entries ≡ []) }
    {
        self.entries.is_empty()
    }
}

/// Lists the completed reads of a register, in one pass over its events.
///
/// # Errors
/// If memory ran out; the arena is as before.
pub fn reads(alloc: Global, arena: &Arena, register: RegId) -> Result<ReadList, AllocError>
    ensures { IfOk result (λ list. (list.register ≡ register.0) × IsReadList arena.now list) }
{
    // Event `i` has time `i + 2`, and a missing reply has the time after the last event.
    let end = arena.event_count() + 2;
    let mut gathering = Gathering::new(alloc, register);
    let mut next = arena.first_of_register(register);
    while let Some(id) = next {
        if arena.begins(id) {
            gathering = gathering.with_call(id, &arena.op(Oper::Called(id)), end)?;
        }
        next = arena.next_in_register(id);
    }
    Ok(ReadList {
        register,
        entries: gathering.into_entries(),
    })
}
