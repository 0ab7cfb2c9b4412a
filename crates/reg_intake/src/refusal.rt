//! Why there is no report.
ghost use Rattle.std.specs.Prelude.{◌≡◌};
ghost use Rattle.reg_intake.specs.Refusals.{number_of, line_of, other_of};

use history_model::{BuildError, LineRefusal};
use history_text::MAX_INPUT;
use std::alloc::AllocError;
use thiserror::Error;

/// Why there is no report. Nothing was written then, but for `OutputFailed`.
#[derive(Clone, Copy, Debug, PartialEq, Eq, Error)]
pub enum Refusal {
    /// 1 to 14, or 19 to 22: the history isn't well formed. Its first faulty line is refused, for the
    /// lowest-numbered reason that applies there.
    #[error(transparent)]
    At(LineRefusal),
    /// 15: the input is longer than its limit, [`MAX_INPUT`].
    #[error("input is longer than {most} bytes", most = MAX_INPUT)]
    TooLong,
    /// 16: the source failed.
    #[error("input could not be read")]
    InputFailed,
    /// 17: memory ran out, or a thread couldn't be started.
    #[error("no memory or no thread")]
    NoRoom,
    /// 18: the sink failed, and a beginning of the report may be out.
    #[error("output could not be written")]
    OutputFailed,
}

impl From<BuildError> for Refusal {
    ghost use Rattle.reg_intake.specs.Refusals.{of_build};

    ghost from_gives = { λ error result. result ≡ of_build error };

    fn from(error: BuildError) -> Refusal {
        match error {
            BuildError::Refused(refusal) => Refusal::At(refusal),
            BuildError::Memory => Refusal::NoRoom,
        }
    }
}

impl From<AllocError> for Refusal {
    ghost use Rattle.reg_intake.specs.declared.refusal.Refusal.TheVariants.{NoRoom};

    ghost from_gives = { λ _ result. result ≡ NoRoom };

    fn from(_error: AllocError) -> Refusal {
        Refusal::NoRoom
    }
}

impl Refusal {
    /// The number of the refusal, 1 to 22.
    pub fn number(&self) -> u8
        ensures { result ≡ number_of self.now }
    {
        match self {
            Refusal::At(refusal) => refusal.reason.number(),
            Refusal::TooLong => 15,
            Refusal::InputFailed => 16,
            Refusal::NoRoom => 17,
            Refusal::OutputFailed => 18,
        }
    }

    /// The refused line, from 1, if it is a line that is refused.
    pub fn line(&self) -> Option<u32>
        ensures { result ≡ line_of self.now }
    {
        match self {
            Refusal::At(refusal) => Some(refusal.line),
            _ => None,
        }
    }

    /// The line of the open call (9), of the earlier write (13), or of the crash (19).
    pub fn other(&self) -> Option<u32>
        ensures { result ≡ other_of self.now }
    {
        match self {
            Refusal::At(refusal) => refusal.reason.other(),
            _ => None,
        }
    }
}
