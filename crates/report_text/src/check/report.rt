//! The report of a history, as values.
use crate::check::lists::{Lines, Registers};
use history_text::Name;

/// Whether a register keeps a level (Lamport, On Interprocess Communication, Part II, 1986).
#[derive(Clone, Copy, Debug, PartialEq, Eq)]
pub enum Verdict {
    /// It has a single writer, and each completed read keeps the level.
    Yes,
    /// It has a single writer, and some completed read breaks the level.
    No,
    /// More than one process calls its writes, and the level isn't defined.
    SeveralWriters,
}

/// Why a register isn't atomic: the operations of its fault, each by the
/// line of its call, the initial write as 0.
#[derive(Clone, Copy, Debug, PartialEq, Eq)]
pub enum FaultLines {
    /// A read whose value nobody wrote.
    Unwritten {
        read: u32,
    },
    /// A read that ended before the write of its value began.
    Early {
        read: u32,
        write: u32,
    },
    /// Two writes whose zones conflict. In `first` an operation of the first write's cluster precedes one of
    /// the second's, and in `second` the other way round, so neither write can come before the other.
    Zones {
        writes: (u32, u32),
        first: (u32, u32),
        second: (u32, u32),
    },
}

/// The line of a register. Lines are numbered from 1; an operation is identified by the line of its call.
#[derive(Drop)]
pub struct RegReport {
    pub register: Name,
    /// The number of writes, pending ones too. The initial write isn't counted, nor is a call that failed.
    pub writes: u32,
    /// The number of reads, pending ones too, but without calls that failed.
    pub reads: u32,
    /// How many of these writes and reads are pending.
    pub pending: u32,
    pub safe: Verdict,
    pub regular: Verdict,
    /// If it isn't safe, of the reads that break it the one called first.
    pub safe_read: Option<u32>,
    /// If it isn't regular, of the reads that break it the one called first.
    pub regular_read: Option<u32>,
    /// Whether some order of its operations keeps precedence and gives each read the latest write.
    pub atomic: bool,
    /// If it isn't atomic, why.
    pub fault: Option<FaultLines>,
    /// If it is regular and not atomic, a new-old inversion: a read that gives a new value,
    /// and one after it that gives an older one.
    pub inversion: Option<(u32, u32)>,
    /// If it is atomic, its canonical order without the initial write.
    pub order: Option<Lines>,
    /// If it is atomic, the points of `order`, place by place: each by
    /// the line of the call that has that time.
    pub points: Option<Lines>,
}

/// The lines of the registers, or of only the first that isn't atomic, and the summary.
#[derive(Drop)]
pub struct Report {
    pub regs: Registers,
    /// The number of operations: the calls that didn't fail.
    pub operations: u32,
    /// The number of registers.
    pub registers: u32,
    /// Whether some order of all operations keeps precedence and gives
    /// each read the latest write of its register.
    pub atomic: bool,
    /// If it is atomic and the whole report was asked for, the merged order without the initial writes.
    pub order: Option<Lines>,
}
