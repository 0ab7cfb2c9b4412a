//! The report of a history's levels, as values. An operation is identified by the line of its call, from 1;
//! the initial write has 0.
use crate::level::causal::CausalLines;
use history_text::Name;

/// A level, by the word that reports and the command line have for it, the strongest first.
#[derive(Clone, Copy, Debug, PartialEq, Eq)]
pub enum LevelName {
    /// Linearizable.
    Atomic,
    /// No stale read.
    Regular,
    /// Writes keep real time, and a session sees its own operations in order.
    Session,
    /// Writes keep real time, and a session never misses a write of its own.
    OwnWrites,
    /// Writes keep real time, and a session never goes back to an older value.
    Monotonic,
    /// A session sees its own operations in order, and all agree on one order of the writes.
    Sequential,
}

/// What a history may be required to keep.
#[derive(Clone, Copy, Debug, PartialEq, Eq)]
pub enum Required {
    /// A level, of each register.
    Each(LevelName),
    /// One order of all writes, in which each read gives the last one of its register that it knows of.
    Causal,
}

/// A read that gave an older value than that of a write which precedes it.
#[derive(Clone, Copy, Debug, PartialEq, Eq)]
pub struct MissedWrite {
    /// The write that it missed.
    pub newer: u32,
    pub read: u32,
    /// The operation that had written or read the older value before that write began.
    pub seen: u32,
}

/// A read that gave an older value than a read which precedes it.
#[derive(Clone, Copy, Debug, PartialEq, Eq)]
pub struct WentBack {
    /// The read that precedes it.
    pub earlier: u32,
    /// The write of that read's value.
    pub newer: u32,
    pub read: u32,
    /// The operation that had written or read the older value before that write began.
    pub seen: u32,
}

/// A read that ended before the write of its value began.
#[derive(Clone, Copy, Debug, PartialEq, Eq)]
pub struct EarlyRead {
    pub read: u32,
    pub write: u32,
}

/// How old reads may be for the register to be atomic all the same, and what would conflict if they might
/// only be younger.
#[derive(Clone, Copy, Debug, PartialEq, Eq)]
pub struct GapLines {
    /// The age, in events.
    pub events: u32,
    /// An operation of the first write's cluster, and one of the second's that has to come after it.
    pub first: (u32, u32),
    /// The same the other way round.
    pub second: (u32, u32),
    pub writes: (u32, u32),
}

/// Why a register doesn't keep a level.
#[derive(Debug, Drop, PartialEq)]
pub enum FaultLines {
    /// A read whose value nobody wrote.
    Unwritten {
        read: u32,
    },
    /// A read that has to come before the write of its value.
    Early {
        read: u32,
        write: u32,
    },
    /// Writes each of which has to come before the next, and the last before the first. Of each step, an
    /// operation of the one write's cluster, and one of the next one's that has to come after it.
    Cycle {
        steps: Vec<(u32, u32)>,
        writes: Vec<u32>,
    },
}

/// An order of operations without the initial write, and the level that it keeps.
#[derive(Debug, Drop, PartialEq)]
pub struct OrderLines {
    pub level: LevelName,
    pub lines: Vec<u32>,
}

/// How many operations of a register there are. The initial write isn't counted, nor is a call that failed.
#[derive(Clone, Copy, Debug, PartialEq, Eq)]
pub struct CalledOperations {
    pub reads: u32,
    pub writes: u32,
    /// Those of both that are pending.
    pub pending: u32,
}

/// Which guarantees weaker than atomic a register kept, and why not.
#[derive(Debug, Drop)]
pub struct KeptGuarantees {
    pub session: bool,
    pub sequential: bool,
    /// The halves of `session`, if that is no.
    pub own_writes: Option<bool>,
    pub monotonic: Option<bool>,
    /// Why `session` is no, if both of its halves are yes.
    pub session_fault: Option<FaultLines>,
    pub own_writes_fault: Option<FaultLines>,
    pub monotonic_fault: Option<FaultLines>,
    pub sequential_fault: Option<FaultLines>,
}

/// How old the values were that the reads of a register gave.
#[derive(Debug, Drop)]
pub struct Freshness {
    pub atomic: bool,
    pub regular: bool,
    /// The first read whose value nobody wrote.
    pub unwritten: Option<u32>,
    /// If there is none, the first read that ended before the write of its value began.
    pub early: Option<EarlyRead>,
    /// If neither is there, how many reads gave an older value than that of a write which precedes them; that
    /// of an earlier write of their session; of an earlier read of their session; of an earlier read of any
    /// session. And after how many acknowledged writes somebody read, and always something older.
    pub stale: Option<u32>,
    pub own: Option<u32>,
    pub back: Option<u32>,
    pub inverted: Option<u32>,
    pub lost: Option<u32>,
    /// The first of each.
    pub stale_read: Option<MissedWrite>,
    pub own_read: Option<MissedWrite>,
    pub back_read: Option<WentBack>,
    pub inverted_read: Option<WentBack>,
    pub lost_write: Option<u32>,
    /// If it isn't atomic for no other reason.
    pub gap: Option<GapLines>,
    /// Each stale read with the write that it missed, if that was asked for.
    pub stale_reads: Option<Vec<(u32, u32)>>,
}

/// The line of a register.
#[derive(Debug, Drop)]
pub struct RegisterLevels {
    pub register: Name,
    pub operations: CalledOperations,
    pub freshness: Freshness,
    pub guarantees: KeptGuarantees,
    /// An order for the strongest level that holds, if that was asked for.
    pub order: Option<OrderLines>,
}

/// The last line: what holds of all registers, and of the whole history.
#[derive(Debug, Drop)]
pub struct Totals {
    /// The number of operations: the calls that didn't fail.
    pub operations: u64,
    pub reads: u64,
    pub registers: u64,
    pub atomic: bool,
    pub causal: CausalLines,
    pub regular: bool,
    pub session: bool,
    pub sequential: bool,
    /// The halves of `session`, if that is no.
    pub own_writes: Option<bool>,
    pub monotonic: Option<bool>,
    /// Sums over the registers that have these counts.
    pub stale: u64,
    pub own: u64,
    pub back: u64,
    pub inverted: u64,
    pub lost: u64,
    /// How many registers have none, if there are any.
    pub unclean: Option<u64>,
    /// The greatest gap, if the whole isn't atomic and all registers have their counts.
    pub gap: Option<u64>,
}

/// The lines of the registers, in the order of their first calls, and the last line.
#[derive(Debug, Drop)]
pub struct LevelsReport {
    pub registers: Vec<RegisterLevels>,
    pub totals: Totals,
}
