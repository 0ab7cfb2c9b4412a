//! How many calls a history has, and how many each register, without those that failed.
ghost use Rattle.std.specs.Prelude.{◌≡◌, ◌<◌, length, replicate, set, slice_get, Some, IfOk};
ghost use Rattle.reg_report.specs.Tally.{AreCallCounts, HasRoom, counted, no_calls};
ghost use Rattle.reg_report.specs.declared.tally.Tally.{Tally as ATally};

use crate::arena_laws::arena_laws;
use history_model::{EvId, Op, Oper};
use history_text::OpKind;
use reg_arena::Arena;
use std::alloc::{AllocError, Global};

/// The calls of a register that didn't fail, pending ones too.
#[derive(Clone, Copy, Debug, PartialEq, Eq)]
pub(crate) struct Tally {
    pub(crate) writes: u32,
    pub(crate) reads: u32,
    pub(crate) pending: u32,
}

impl Tally {
    /// The tally with one more call.
    fn and(self, op: &Op) -> Tally
        requires { HasRoom self }
        ensures { result ≡ counted op.now self }
    {
        let pending = if op.reply.is_none() {
            self.pending + 1
        } else {
            self.pending
        };
        match op.kind {
            OpKind::WriteOp => Tally {
                writes: self.writes + 1,
                reads: self.reads,
                pending,
            },
            OpKind::ReadOp => Tally {
                writes: self.writes,
                reads: self.reads + 1,
                pending,
            },
        }
    }
}

/// How many calls a history has that didn't fail, pending ones too.
#[derive(Drop)]
pub(crate) struct CallCounts {
    pub(crate) operations: u32,
    /// Those of each register, by number.
    pub(crate) tallies: Vec<Tally>,
}

/// The tallies of `count` registers without calls.
fn none_counted(alloc: Global, count: u32) -> Result<Vec<Tally>, AllocError>
    ensures { IfOk result (λ tallies. tallies.items ≡ replicate count no_calls) }
{
    let mut tallies = Vec::new(alloc);
    tallies.resize(
        count as usize,
        Tally {
            writes: 0,
            reads: 0,
            pending: 0,
        },
    )?;
    Ok(tallies)
}

/// Adds a call to the tally of its register.
fn add(tallies: &mut Vec<Tally>, op: &Op)
    requires within { op.now.register.0 < length tallies.old.items }
    requires room { (tally : ATally) → slice_get tallies.old.items op.now.register.0 ≡ Some tally
        → HasRoom tally }
    ensures { (tally : ATally) → slice_get tallies.old.items op.now.register.0 ≡ Some tally
        → tallies.new.items ≡ set tallies.old.items op.now.register.0 (counted op.now tally) }
{
    let register = op.register.0 as usize;
    let tally = tallies[register];
    tallies[register] = tally.and(op);
}

/// Counts the calls that didn't fail, all of them and those of each register, in one pass over the events.
pub(crate) fn count_calls(alloc: Global, arena: &Arena) -> Result<CallCounts, AllocError>
    ensures { IfOk result (AreCallCounts arena.now) }
{
    arena_laws(arena);
    let mut tallies = none_counted(alloc, arena.register_count())?;
    let mut operations = 0;
    for number in 0..arena.event_count() {
        let id = EvId(number);
        if arena.begins(id) {
            add(&mut tallies, &arena.op(Oper::Called(id)));
            operations += 1;
        }
    }
    Ok(CallCounts {
        operations,
        tallies,
    })
}
