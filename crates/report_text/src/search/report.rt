//! The report of a history with cas, as values.
use history_text::Name;

/// Why a register isn't atomic.
#[derive(Debug, Drop, PartialEq)]
pub enum Fault {
    /// The completed read, or the cas that took place, with the first call whose
    /// value nobody wrote: the line of its call.
    Unwritten {
        call: u32,
    },
    /// What was called before the reply of this line has no legal order, given what each call is known to
    /// have done, and without later replies. `asks` has the calls that are open at that reply, each by its
    /// line and in the order of the lines: they came before it, and no earlier reply is theirs, so the call
    /// that it answers is one of them. `before` is a legal order of what was known just before that reply,
    /// where one was found.
    Search {
        asks: Vec<u32>,
        before: Option<Vec<u32>>,
        reply: u32,
    },
}

/// The bound at which a search gave up.
#[derive(Clone, Copy, Debug, PartialEq, Eq)]
pub enum ReachedBound {
    /// That of the configurations that are kept at once.
    Configurations,
    /// That of the steps.
    Steps,
}

/// Whether a register is atomic.
#[derive(Debug, Drop, PartialEq)]
pub enum Atomicity {
    /// It is: a legal order of its operations without the initial write, by the lines of their calls, and the
    /// point of each, as the line of the call that has that time.
    Yes { order: Vec<u32>, points: Vec<u32> },
    /// It isn't.
    No(Fault),
    /// The search gave up at this bound.
    Unknown(ReachedBound),
}

/// The line of a register. Lines are numbered from 1; an operation is identified by the line of its call.
#[derive(Debug, Drop)]
pub struct RegisterReport {
    pub register: Name,
    pub atomicity: Atomicity,
    /// How many cas there are: those that took place, that missed, and that are
    /// pending. A call that failed isn't counted.
    pub cas: usize,
    /// How many of all its operations are pending.
    pub pending: usize,
    /// How many reads there are, pending ones too.
    pub reads: usize,
    /// How many writes there are, pending ones too.
    pub writes: usize,
}

/// Whether a whole history is atomic.
#[derive(Clone, Copy, Debug, PartialEq, Eq)]
pub enum Outcome {
    /// Each register is.
    Yes,
    /// Some register isn't.
    No,
    /// The search gave up on some register, and no register is known not to be.
    Unknown,
}

/// The lines of the registers, and the summary.
#[derive(Debug, Drop)]
pub struct Report {
    /// In the order of the registers' first calls.
    pub registers: Vec<RegisterReport>,
    /// The number of operations: the calls that didn't fail.
    pub operations: usize,
    /// Whether the whole history is atomic.
    pub atomic: Outcome,
}
