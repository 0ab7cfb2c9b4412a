//! How far a search may go, by a caller's numbers.
ghost use Rattle.std.specs.Prelude.{◌≡◌};
ghost use Rattle.regcheck_c.specs.Searching.{configurations_of, steps_of};

use register_search::{Bounds, MAX_CONFIGURATIONS, MAX_STEPS};

/// The bounds of a search: 0 stands for what the program does if nobody says
/// otherwise, and more than the most for the most.
pub(crate) fn bounds_of(steps: u64, configurations: usize) -> Bounds
    ensures steps { result.steps ≡ steps_of steps }
    ensures configurations { result.configurations ≡ configurations_of configurations }
{
    Bounds {
        steps: match steps {
            0 => Bounds::DEFAULT.steps,
            given => given.min(MAX_STEPS),
        },
        configurations: match configurations {
            0 => Bounds::DEFAULT.configurations,
            given => given.min(MAX_CONFIGURATIONS),
        },
    }
}
