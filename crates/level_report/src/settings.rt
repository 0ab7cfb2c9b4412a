//! What a run asks for.
ghost use Rattle.std.specs.Prelude.{◌≡◌, ◌≤◌, None, Some};

use report_text::level::Required;

/// The most workers that share the registers.
pub const MAX_WORKERS: u32 = 16;

/// What a report has to say beyond the verdicts, the counts and the gap.
#[derive(Clone, Copy, Debug, PartialEq, Eq)]
pub struct Asked {
    /// Each stale read with the write that it missed.
    pub stale: bool,
    /// An order for the strongest level that a register kept, and one of all writes if the history is causal.
    pub orders: bool,
}

/// How many workers share the registers, what a history has to keep, and what the report has to say. The
/// number of workers changes no report.
#[derive(Clone, Copy, Debug)]
pub struct Settings {
    workers: u32,
    required: Required,
    asked: Asked,
}

impl Settings {
    /// Settings, if there are 1 to [`MAX_WORKERS`] workers.
    pub fn new(workers: u32, required: Required, asked: Asked) -> Option<Settings>
        ensures some { (1 ≤ workers) → (workers ≤ MAX_WORKERS)
            → result ≡ Some (record { workers = workers; required = required; asked = asked }) }
        ensures none { ((1 ≤ workers) × (workers ≤ MAX_WORKERS) → ⊥) → result ≡ None }
    {
        if workers < 1 || workers > MAX_WORKERS {
            return None;
        }
        Some(Settings {
            workers,
            required,
            asked,
        })
    }

    /// Settings for the calling thread alone.
    pub fn alone(required: Required, asked: Asked) -> Settings
        ensures { result ≡ record { workers = 1; required = required; asked = asked } }
    {
        Settings {
            workers: 1,
            required,
            asked,
        }
    }

    /// How many workers share the registers.
    pub(crate) fn workers(self) -> u32
        ensures { result ≡ self.workers }
    {
        self.workers
    }

    /// What a history has to keep.
    pub(crate) fn required(self) -> Required
        ensures { result ≡ self.required }
    {
        self.required
    }

    /// What the report has to say in addition.
    pub(crate) fn asked(self) -> Asked
        ensures { result ≡ self.asked }
    {
        self.asked
    }
}
