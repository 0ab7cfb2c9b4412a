//! Levels and their words.
ghost use Rattle.std.specs.Prelude.{◌≡◌};
ghost use Rattle.report_text.specs.Level.Words.{word_of, IsLevelRead};

use crate::level::report::{LevelName, Required};
use std::str::FromStr;
use thiserror::Error;

impl LevelName {
    /// The word for it, in reports and on the command line.
    pub fn word(self) -> &'static str
        ensures { result.now ≡ word_of self }
    {
        match self {
            LevelName::Atomic => "atomic",
            LevelName::Regular => "regular",
            LevelName::Session => "session",
            LevelName::OwnWrites => "own_writes",
            LevelName::Monotonic => "monotonic",
            LevelName::Sequential => "sequential",
        }
    }
}

/// The word is that of no level.
#[derive(Clone, Copy, Debug, PartialEq, Eq, Error)]
#[error("no level has this name")]
pub struct UnknownLevel;

impl FromStr for Required {
    type Err = UnknownLevel;

    ghost from_str_gives = { IsLevelRead };

    fn from_str(word: &str) -> Result<Required, UnknownLevel> {
        match word {
            "atomic" => Ok(Required::Each(LevelName::Atomic)),
            "regular" => Ok(Required::Each(LevelName::Regular)),
            "session" => Ok(Required::Each(LevelName::Session)),
            "own_writes" => Ok(Required::Each(LevelName::OwnWrites)),
            "monotonic" => Ok(Required::Each(LevelName::Monotonic)),
            "sequential" => Ok(Required::Each(LevelName::Sequential)),
            "causal" => Ok(Required::Causal),
            _ => Err(UnknownLevel),
        }
    }
}
