//! Whether a history kept what was required.
ghost use Rattle.std.specs.Prelude.{◌≡◌};
ghost use Rattle.level_report.specs.Totals.{outcome_said, outcome_of_level, outcome_of_verdict, totals_say};

use report_text::level::{CausalVerdict, LevelName, Required, Totals};

/// Whether a history kept what was required.
#[derive(Clone, Copy, Debug, PartialEq, Eq)]
pub enum Outcome {
    /// It did: of a level, each register.
    Kept,
    /// It didn't: of a level, some register.
    Broken,
    /// Causal was required, and the history has so many sessions and operations that it was left undecided.
    Unknown,
}

/// What the last line says of a level; a session that was kept has both of its halves.
fn says(totals: &Totals, level: LevelName) -> bool
    ensures { result ≡ totals_say level totals.now }
{
    match level {
        LevelName::Atomic => totals.atomic,
        LevelName::Regular => totals.regular,
        LevelName::Session => totals.session,
        LevelName::OwnWrites => totals.own_writes.unwrap_or(true),
        LevelName::Monotonic => totals.monotonic.unwrap_or(true),
        LevelName::Sequential => totals.sequential,
    }
}

fn of_level(holds: bool) -> Outcome
    ensures { result ≡ outcome_of_level holds }
{
    if holds {
        Outcome::Kept
    } else {
        Outcome::Broken
    }
}

fn of_verdict(verdict: CausalVerdict) -> Outcome
    ensures { result ≡ outcome_of_verdict verdict }
{
    match verdict {
        CausalVerdict::Yes => Outcome::Kept,
        CausalVerdict::No => Outcome::Broken,
        CausalVerdict::Unknown => Outcome::Unknown,
    }
}

/// Whether what is required was kept, by the last line.
pub(crate) fn outcome_for(totals: &Totals, required: Required) -> Outcome
    ensures { result ≡ outcome_said required totals.now }
{
    match required {
        Required::Each(level) => of_level(says(totals, level)),
        Required::Causal => of_verdict(totals.causal.verdict),
    }
}
