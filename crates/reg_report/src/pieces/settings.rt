//! How many workers there are, how many reads a cut has, and whether the first register
//! that isn't atomic is all that is asked for.
ghost use Rattle.std.specs.Prelude.{◌≡◌, ◌≤◌, ◌↔◌, false, IsSome, IfSome};
ghost use Rattle.reg_report.specs.Pieces.Settings.{SettingsShown};

use std::marker::Model;

/// The most workers.
pub const MAX_WORKERS: u32 = 16;

/// The most reads of a cut.
pub const MAX_CUT: u32 = 1_048_576;

/// Numbers within their limits: 1 to [`MAX_WORKERS`] workers, and a cut of 1 to [`MAX_CUT`] reads, neither of
/// which changes a report; and whether the first register that isn't atomic is all that is asked for.
#[derive(Clone, Copy, Debug, PartialEq, Eq)]
pub struct Settings {
    workers: u32,
    cut: u32,
    first: bool,
}

impl Model for Settings {
    ghost use Rattle.std.specs.Prelude.{◌<◌, ◌≤◌};
    ghost use Rattle.reg_report.specs.Pieces.Settings.{SettingsShown};
    ghost use Rattle.reg_report.specs.declared.pieces.settings.TheConstants.{MAX_CUT, MAX_WORKERS};

    ghost Value = { SettingsShown };

    ghost view = { λ s. record { workers = s.workers; cut = s.cut; first = s.first } };

    ghost inverse = { λ s. record { workers = s.workers; cut = s.cut; first = s.first } };

    ghost invariant = { λ s. (0 < s.workers) × (s.workers ≤ MAX_WORKERS) × (0 < s.cut) × (s.cut ≤ MAX_CUT) };
}

impl Settings {
    /// These settings, or nothing if a number isn't within its limits.
    pub fn new(workers: u32, cut: u32, first: bool) -> Option<Settings>
        ensures some { IfSome result (λ s. s ≡ record { workers = workers; cut = cut; first = first }) }
        ensures limits { IsSome result
            ↔ ((1 ≤ workers) × (workers ≤ MAX_WORKERS) × (1 ≤ cut) × (cut ≤ MAX_CUT)) }
    {
        if workers == 0 || workers > MAX_WORKERS || cut == 0 || cut > MAX_CUT {
            return None;
        }
        Some(Settings {
            workers,
            cut,
            first,
        })
    }

    /// How many workers there are, 1 to [`MAX_WORKERS`].
    pub fn workers(&self) -> u32
        ensures value { result ≡ self.now.workers }
        ensures limits { (1 ≤ result) × (result ≤ MAX_WORKERS) }
    {
        self.workers
    }

    /// How many reads a cut has at most, 1 to [`MAX_CUT`].
    pub fn cut(&self) -> u32
        ensures value { result ≡ self.now.cut }
        ensures limits { (1 ≤ result) × (result ≤ MAX_CUT) }
    {
        self.cut
    }

    /// Whether the first register that isn't atomic is all that is asked for, and no order.
    pub fn first(&self) -> bool
        ensures { result ≡ self.now.first }
    {
        self.first
    }
}
