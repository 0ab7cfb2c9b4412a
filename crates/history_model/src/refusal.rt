//! Why a history is refused.
ghost use Rattle.std.specs.Prelude.{◌≡◌};
ghost use Rattle.history_model.specs.declared.refusal.BuildError.TheVariants.{Memory};
ghost use Rattle.history_model.specs.Table.{reason_number, reason_other};

use history_text::{LineKind, MAX_EVENTS};
use std::alloc::AllocError;
use thiserror::Error;

/// Why a line is refused. Each reason has a number, and of several that apply to a line the one with the
/// lowest number stands. `WrittenBefore` is only for programs whose values are distinct, `NoOk` and
/// `BadTold` only for those that take a cas.
#[derive(Clone, Copy, Debug, PartialEq, Eq, Error)]
pub enum Reason {
    /// 1 to 8, or 20: the fault of the line by itself.
    #[error(transparent)]
    Faulty(LineKind),
    /// 9: a call, while its process has an open call, at this line.
    #[error("the process has an open call at line {0}")]
    OpenCall(u32),
    /// 10: a reply or a fail without an open call.
    #[error("reply without an open call")]
    NoOpenCall,
    /// 11: a reply or a fail that disagrees with its call.
    #[error("reply disagrees with its call")]
    Disagreement,
    /// 12: a read's reply without a value.
    #[error("a read's reply has no value")]
    NoValue,
    /// 13: a write of a value that a write at this line already gave to the register.
    #[error("value already written to this register at line {0}")]
    WrittenBefore(u32),
    /// 14: an event past the limit, [`MAX_EVENTS`].
    #[error("more than {most} events", most = MAX_EVENTS)]
    TooMany,
    /// 19: an event of a process that crashed, at this line.
    #[error("the process crashed at line {0}")]
    AfterCrash(u32),
    /// 21: a reply to a cas with no `ok`, or another than `true` and `false`.
    #[error("a cas's reply has no ok, true or false")]
    NoOk,
    /// 22: a reply whose `old` or `found` has another form where it counts, is missing where one is needed,
    /// or contradicts what else the reply says.
    #[error("old or found does not fit the event")]
    BadTold,
}

impl Reason {
    /// The number of the refusal: 1 to 14, or 19 to 22.
    pub fn number(&self) -> u8
        ensures { result ≡ reason_number self.now }
    {
        match self {
            Reason::Faulty(kind) => kind.number(),
            Reason::OpenCall(_) => 9,
            Reason::NoOpenCall => 10,
            Reason::Disagreement => 11,
            Reason::NoValue => 12,
            Reason::WrittenBefore(_) => 13,
            Reason::TooMany => 14,
            Reason::AfterCrash(_) => 19,
            Reason::NoOk => 21,
            Reason::BadTold => 22,
        }
    }

    /// The other line that the reason names: that of the open call, of the earlier write, or of the crash.
    pub fn other(&self) -> Option<u32>
        ensures { result ≡ reason_other self.now }
    {
        match self {
            Reason::OpenCall(line) | Reason::WrittenBefore(line) | Reason::AfterCrash(line) => {
                Some(*line)
            }
            Reason::Faulty(_)
            | Reason::NoOpenCall
            | Reason::Disagreement
            | Reason::NoValue
            | Reason::TooMany
            | Reason::NoOk
            | Reason::BadTold => None,
        }
    }
}

/// The refusal of the first faulty line.
#[derive(Clone, Copy, Debug, PartialEq, Eq, Error)]
#[error("line {line}: {reason}")]
pub struct LineRefusal {
    /// The line, from 1.
    pub line: u32,
    /// The reason, the lowest-numbered of those that apply there.
    pub reason: Reason,
}

/// Why the events of some lines aren't taken in.
#[derive(Clone, Copy, Debug, PartialEq, Eq, Error)]
pub enum BuildError {
    /// The history isn't well formed.
    #[error(transparent)]
    Refused(LineRefusal),
    /// Memory ran out.
    #[error("out of memory")]
    Memory,
}

impl From<AllocError> for BuildError {
    ghost from_gives = { λ _ e. e ≡ Memory };

    fn from(_error: AllocError) -> BuildError {
        BuildError::Memory
    }
}
