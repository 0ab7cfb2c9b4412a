//! What the numbers of a caller ask of the levels.
ghost use Rattle.std.specs.Prelude.{◌≡◌};
ghost use Rattle.regcheck_c.specs.Leveling.{addition_of, level_of};

use level_report::{Asked, LevelName, Required};

const LEVELS: [Required; 7] = [
    Required::Each(LevelName::Atomic),
    Required::Each(LevelName::Regular),
    Required::Each(LevelName::Session),
    Required::Each(LevelName::OwnWrites),
    Required::Each(LevelName::Monotonic),
    Required::Each(LevelName::Sequential),
    Required::Causal,
];

/// What is required by this number, from 0.
pub(crate) fn level(number: u32) -> Option<Required>
    ensures { result ≡ level_of number }
{
    LEVELS.get(number as usize).copied()
}

const ADDITIONS: [Asked; 4] = [
    Asked {
        stale: false,
        orders: false,
    },
    Asked {
        stale: true,
        orders: false,
    },
    Asked {
        stale: false,
        orders: true,
    },
    Asked {
        stale: true,
        orders: true,
    },
];

/// What a report has to say in addition: 1 stands for the stale reads, 2 for an order, and 3 for both.
pub(crate) fn asked(number: u32) -> Option<Asked>
    ensures { result ≡ addition_of number }
{
    ADDITIONS.get(number as usize).copied()
}
