//! The pieces of work of a history, numbered from 0: register by register, its verdict, then its reads in
//! cuts; or one a register, to find the first that isn't atomic.
ghost use Rattle.std.specs.Prelude.{◌≡◌, ◌<◌, length, slice_get, Some};

use history_model::RegId;
use reg_lamport::ReadCounts;
use std::marker::Model;

/// One piece of work.
#[derive(Clone, Copy, Debug, PartialEq, Eq)]
pub enum Task {
    /// Whether a register is atomic: its order or its fault.
    Judge(RegId),
    /// The first bad reads among a register's completed reads numbered `from` up to but not including `to`.
    Reads {
        register: RegId,
        from: usize,
        to: usize,
    },
    /// Whether a register is atomic, if no lower one is known that isn't.
    First(RegId),
}

/// The pieces of work of a history, with the number of completed reads of each register that has a single
/// writer. If the first register that isn't atomic is all that is asked for, no reads are counted.
#[derive(Drop)]
pub struct Plan {
    pub(crate) tasks: Vec<Task>,
    pub(crate) counts: ReadCounts,
    pub(crate) first: bool,
}

impl Model for Plan {
    ghost use Rattle.reg_report.specs.Pieces.Plan.{PlanShown};

    ghost Value = { PlanShown };

    ghost view = { λ p. record { tasks = p.tasks.items; counts = p.counts; first = p.first } };
}

impl Plan {
    ghost use Rattle.std.specs.Prelude.{◌≡◌, ◌<◌, length, slice_get, Some};
    ghost use Rattle.reg_report.specs.Pieces.Plan.{is_cut};

    /// How many pieces there are.
    pub fn len(&self) -> u64
        ensures { result ≡ length self.now.tasks }
    {
        self.tasks.len() as u64
    }

    /// Whether the first register that isn't atomic is all that is asked for.
    pub(crate) fn is_first(&self) -> bool
        ensures { result ≡ self.now.first }
    {
        self.first
    }

    /// The task of this number.
    pub(crate) fn task(&self, number: u64) -> Task
        requires { number < length self.now.tasks }
        ensures { slice_get self.now.tasks number ≡ Some result }
    {
        self.tasks[number as usize]
    }

    /// Whether the task of this number, if there is one, is a cut.
    pub fn is_cut(&self, number: usize) -> bool
        ensures { result ≡ is_cut (slice_get self.now.tasks number) }
    {
        matches!(self.tasks.get(number), Some(Task::Reads { .. }))
    }

    /// How many completed reads this register has, if it has a single writer.
    pub fn count(&self, register: RegId) -> Option<u32>
        requires { register.0 < length self.now.counts }
        ensures { slice_get self.now.counts register.0 ≡ Some result }
    {
        self.counts.of(register)
    }
}
