//! Why there are no words.
ghost use Rattle.std.specs.Prelude.{◌≡◌};
ghost use Rattle.clap.specs.Values.{kind_of};

use clap::error::ErrorKind;
use std::alloc::{AllocError, Global};
use thiserror::Error;

/// Why there are no words.
#[derive(Debug, Drop, Error)]
pub enum WordsFault {
    /// They are refused, or ask for help or the version: the text of the parser, with its line ends.
    #[error("{0}")]
    Bad(String),
    /// Memory ran out.
    #[error("out of memory")]
    Memory,
}

impl From<AllocError> for WordsFault {
    ghost use Rattle.command_words.specs.declared.fault.WordsFault.TheVariants.{Memory};

    ghost from_gives = { λ _ result. result ≡ Memory };

    fn from(_error: AllocError) -> WordsFault {
        WordsFault::Memory
    }
}

/// What the parser says.
pub(crate) fn fault(alloc: Global, error: &clap::Error) -> WordsFault
    ensures { kind_of error.now ≡ ErrorKind.OutOfMemory → result ≡ WordsFault.Memory }
{
    if error.kind() == ErrorKind::OutOfMemory {
        return WordsFault::Memory;
    }
    match format!(in alloc; "{error}") {
        Ok(text) => WordsFault::Bad(text),
        Err(AllocError) => WordsFault::Memory,
    }
}
