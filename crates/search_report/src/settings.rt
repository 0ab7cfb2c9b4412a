//! How many workers a run has, and how far its search may go.
ghost use Rattle.std.specs.Prelude.{◌≡◌, ◌≤◌, None, Some};

use register_search::Bounds;

/// The most workers that share the registers.
pub const MAX_WORKERS: u32 = 16;

/// How many workers share the registers, rounded down to a power of two, and how far the search for an order
/// of each may go. The number of workers changes no report.
#[derive(Clone, Copy, Debug)]
pub struct Settings {
    workers: u32,
    bounds: Bounds,
}

impl Settings {
    /// Settings, if there are 1 to [`MAX_WORKERS`] workers.
    pub fn new(workers: u32, bounds: Bounds) -> Option<Settings>
        ensures some { (1 ≤ workers) → (workers ≤ MAX_WORKERS)
            → result ≡ Some (record { workers = workers; bounds = bounds }) }
        ensures none { ((1 ≤ workers) × (workers ≤ MAX_WORKERS) → ⊥) → result ≡ None }
    {
        if workers < 1 || workers > MAX_WORKERS {
            return None;
        }
        Some(Settings { workers, bounds })
    }

    /// How many workers share the registers.
    pub(crate) fn workers(self) -> u32
        ensures { result ≡ self.workers }
    {
        self.workers
    }

    /// How far the search goes.
    pub(crate) fn bounds(self) -> Bounds
        ensures { result ≡ self.bounds }
    {
        self.bounds
    }
}
