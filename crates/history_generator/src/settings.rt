//! What a history is asked to be.
ghost use Rattle.std.specs.Prelude.{◌≡◌, ◌+◌, ◌<◌, ◌≤◌, ℕ, Some};
ghost use Rattle.history_generator.specs.declared.settings.TheConstants.{MOST};

use crate::kind::Kind;

/// The greatest number of events, of processes and of registers.
pub const MOST: u32 = 1_048_576;

/// What a history is asked to be. The same settings give the same bytes.
#[derive(Clone, Copy, Debug, PartialEq, Eq)]
pub struct Settings {
    pub kind: Kind,
    /// How many events it has; at most [`MOST`].
    pub events: u32,
    /// What the random choices come from.
    pub seed: u64,
    /// How many clients call at once, at most; from 1 to [`MOST`].
    pub processes: u32,
    /// How many registers they use, at most; from 1 to [`MOST`].
    pub registers: u32,
    ghost few_events: { events ≤ MOST },
    ghost some_processes: { 0 < processes },
    ghost few_processes: { processes ≤ MOST },
    ghost some_registers: { 0 < registers },
    ghost few_registers: { registers ≤ MOST },
}

/// How many processes there are by default: a share of the events for the kinds that are about many.
fn usual_processes(kind: Kind, events: u32) -> u32
    ensures { result ≤ events + 4 }
{
    match kind {
        Kind::Hot | Kind::HotReverse => events / 2,
        Kind::Zones => events / 4,
        Kind::Processes => events / 8,
        _ => 4,
    }
}

/// How many registers there are by default.
fn usual_registers(kind: Kind, events: u32) -> u32
    ensures { result ≤ events + 1 }
{
    match kind {
        Kind::Registers => events / 8,
        _ => 1,
    }
}

impl Settings {
    /// Settings with what is left out chosen for the kind. There are at most [`MOST`]
    /// events. The processes and the registers are moved to the range from 1 to [`MOST`],
    /// and an inversion has at least 2 processes.
    pub fn new(
        kind: Kind,
        events: u32,
        seed: u64,
        processes: Option<u32>,
        registers: Option<u32>,
    ) -> Self
        ensures kind { result.kind ≡ kind }
        ensures seed { result.seed ≡ seed }
        ensures events { events ≤ MOST → result.events ≡ events }
        ensures processes { (count : ℕ) → processes ≡ Some count → 2 ≤ count → count ≤ MOST
            → result.processes ≡ count }
        ensures registers { (count : ℕ) → registers ≡ Some count → 1 ≤ count → count ≤ MOST
            → result.registers ≡ count }
    {
        let least = if kind == Kind::Inversion { 2 } else { 1 };
        let events = events.min(MOST);
        let processes = processes.unwrap_or(usual_processes(kind, events));
        let registers = registers.unwrap_or(usual_registers(kind, events));
        Settings {
            kind,
            events,
            seed,
            processes: processes.clamp(least, MOST),
            registers: registers.clamp(1, MOST),
        }
    }
}
