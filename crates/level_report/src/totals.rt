//! The last line of a report: what holds of all registers.
ghost use Rattle.std.specs.Prelude.{◌≡◌, ◌^◌, ◌<◌, length, map};
ghost use Rattle.level_report.specs.Totals.{all_say, count_of, events_of_gap, half_of};
ghost use Rattle.level_report.specs.Totals.{says as says_of, told as is_told, total as total_of};
ghost use Rattle.level_report.specs.Totals.{whole_gap as gap_of_whole, AreTotals};
ghost use Rattle.reg_zones.specs.Clusters.{greatest};

use report_text::level::{CausalLines, LevelName, RegisterLevels, Totals};

/// What is summed over the registers.
#[derive(Clone, Copy, Debug, PartialEq, Eq)]
enum Count {
    Reads,
    Writes,
    Stale,
    Own,
    Back,
    Inverted,
    Lost,
    /// 1 of a register without counts.
    Unclean,
}

impl Count {
    /// The count of a register, if it has one.
    fn of(self, reg: &RegisterLevels) -> Option<u32>
        ensures { result ≡ count_of self reg.now }
    {
        match self {
            Count::Reads => Some(reg.operations.reads),
            Count::Writes => Some(reg.operations.writes),
            Count::Stale => reg.freshness.stale,
            Count::Own => reg.freshness.own,
            Count::Back => reg.freshness.back,
            Count::Inverted => reg.freshness.inverted,
            Count::Lost => reg.freshness.lost,
            Count::Unclean => Some(u32::from(reg.freshness.stale.is_none())),
        }
    }
}

/// The sum of a count over the registers that have it.
fn total(regs: &[RegisterLevels], count: Count) -> u64
    requires { length regs.now < 2 ^ 21 }
    ensures is { result ≡ total_of (count_of count) regs.now }
    ensures few { result < 2 ^ 53 }
{
    let mut sum: u64 = 0;
    for reg in regs {
        sum += u64::from(count.of(reg).unwrap_or(0));
    }
    sum
}

/// What the line of a register says of a level; a session that was kept has both of its halves.
fn says(reg: &RegisterLevels, level: LevelName) -> bool
    ensures { result ≡ says_of level reg.now }
{
    match level {
        LevelName::Atomic => reg.freshness.atomic,
        LevelName::Regular => reg.freshness.regular,
        LevelName::Session => reg.guarantees.session,
        LevelName::OwnWrites => reg.guarantees.own_writes.unwrap_or(true),
        LevelName::Monotonic => reg.guarantees.monotonic.unwrap_or(true),
        LevelName::Sequential => reg.guarantees.sequential,
    }
}

/// Whether the lines of all registers say that the level holds.
pub(crate) fn all_hold(regs: &[RegisterLevels], level: LevelName) -> bool
    ensures { result ≡ all_say level regs.now }
{
    regs.iter().all(|reg| says(reg, level))
}

/// A half of the session, which is told of if some register didn't keep the session.
fn half(session: bool, half: bool) -> Option<bool>
    ensures { result ≡ half_of session half }
{
    if session { None } else { Some(half) }
}

/// A number that is told of if it isn't 0.
fn told(n: u64) -> Option<u64>
    ensures { result ≡ is_told n }
{
    if 0 < n { Some(n) } else { None }
}

fn gap_events(reg: &RegisterLevels) -> u32
    ensures { result ≡ events_of_gap reg.now }
{
    match &reg.freshness.gap {
        Some(gap) => gap.events,
        None => 0,
    }
}

/// The greatest gap of all registers.
fn greatest_gap(regs: &[RegisterLevels]) -> u32
    ensures { result ≡ greatest (map events_of_gap regs.now) }
{
    let mut events: u32 = 0;
    for reg in regs {
        events = events.max(gap_events(reg));
    }
    events
}

/// The greatest gap, if the whole isn't atomic and each register has its counts.
fn whole_gap(atomic: bool, unclean: u64, events: u32) -> Option<u64>
    ensures { result ≡ gap_of_whole atomic unclean events }
{
    if !atomic && unclean == 0 {
        Some(u64::from(events))
    } else {
        None
    }
}

/// The last line, from those of the registers and what is said of the whole history.
pub(crate) fn totals(regs: &[RegisterLevels], causal: CausalLines) -> Totals
    requires { length regs.now < 2 ^ 21 }
    ensures totals { AreTotals regs.now result }
    ensures causal { result.causal ≡ causal }
{
    let reads = total(regs, Count::Reads);
    let atomic = all_hold(regs, LevelName::Atomic);
    let session = all_hold(regs, LevelName::Session);
    let unclean = total(regs, Count::Unclean);
    Totals {
        operations: reads + total(regs, Count::Writes),
        reads,
        registers: regs.len() as u64,
        atomic,
        causal,
        regular: all_hold(regs, LevelName::Regular),
        session,
        sequential: all_hold(regs, LevelName::Sequential),
        own_writes: half(session, all_hold(regs, LevelName::OwnWrites)),
        monotonic: half(session, all_hold(regs, LevelName::Monotonic)),
        stale: total(regs, Count::Stale),
        own: total(regs, Count::Own),
        back: total(regs, Count::Back),
        inverted: total(regs, Count::Inverted),
        lost: total(regs, Count::Lost),
        unclean: told(unclean),
        gap: whole_gap(atomic, unclean, greatest_gap(regs)),
    }
}
