//! Why a line has no event.
ghost use Rattle.std.specs.Prelude.{◌≡◌};
ghost use Rattle.history_text.specs.Faults.{fault_number};

use crate::event::Operations;
use crate::limits::{MAX_LINE, MAX_NAME};
use std::fmt;
use thiserror::Error;

impl fmt::Display for Operations {
    fn fmt<W: fmt::Write>(&self, f: &mut fmt::Formatter<W>) -> fmt::Result {
        f.write_str(match self {
            Operations::ReadsAndWrites => "read nor write",
            Operations::WithCas => "read, write, delete, swap nor cas",
        })
    }
}

/// The faults of a line by itself, by ascending number.
#[derive(Clone, Copy, Debug, PartialEq, Eq, Error)]
pub enum LineKind {
    /// The line is longer than [`MAX_LINE`](crate::MAX_LINE) bytes.
    #[error("line is longer than {most} bytes", most = MAX_LINE)]
    TooLong,
    /// The line is not JSON, not UTF-8, or nested deeper than the reader takes.
    #[error("not JSON")]
    NotJson,
    /// The JSON is not an object.
    #[error("not an object")]
    NotObject,
    /// `process` is absent, or not a whole number from 0 to 4294967295.
    #[error("process is not a whole number from 0 to {most}", most = u32::MAX)]
    BadProcess,
    /// `event` is absent, or none of `"call"`, `"reply"`, `"fail"` and `"crash"`.
    #[error("event is not call, reply, fail or crash")]
    BadEvent,
    /// `op` is no word for an operation that is taken; a reply or a fail may leave it out.
    #[error("op is neither {0}")]
    BadOp(Operations),
    /// `register` is not a text of 1 to 255 bytes; a reply or a fail may leave it out.
    #[error("register is not a text of 1 to {most} bytes", most = MAX_NAME)]
    BadRegister,
    /// `value` does not fit the event.
    #[error("value does not fit the event")]
    BadValue,
    /// In the call of a cas, `from` and `unless` are both absent or both there, `to` is absent, or one of
    /// them is neither `null` nor a whole number of 64 bits.
    #[error("from, unless or to does not fit the event")]
    BadFromOrTo,
}

impl LineKind {
    /// The number of the refusal, 1 to 8, or 20.
    pub fn number(&self) -> u8
        ensures { result ≡ fault_number self.now }
    {
        match self {
            LineKind::TooLong => 1,
            LineKind::NotJson => 2,
            LineKind::NotObject => 3,
            LineKind::BadProcess => 4,
            LineKind::BadEvent => 5,
            LineKind::BadOp(_) => 6,
            LineKind::BadRegister => 7,
            LineKind::BadValue => 8,
            LineKind::BadFromOrTo => 20,
        }
    }
}

/// The lowest-numbered fault of one line.
#[derive(Clone, Copy, Debug, PartialEq, Eq, Error)]
#[error("line {line}: {kind}")]
pub struct LineFault {
    /// The line's number, from 1.
    pub line: u32,
    /// The fault, the lowest-numbered of those that the line has.
    pub kind: LineKind,
}

impl LineFault {
    /// The number of the refusal, 1 to 8, or 20.
    pub fn number(&self) -> u8
        ensures { result ≡ fault_number self.now.kind }
    {
        self.kind.number()
    }
}
