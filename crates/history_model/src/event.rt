//! An event of an accepted history.
use crate::ids::RegId;
use history_text::{OpKind, Val};

/// What an event is, with the kind of its call.
#[derive(Clone, Copy, Debug, PartialEq, Eq)]
pub enum What {
    /// The call of an operation, or a call that failed.
    Call(OpKind),
    /// The reply to a call.
    Reply(OpKind),
    /// The end of a call that had no effect.
    Fail(OpKind),
    /// The process does nothing more.
    Crash,
}

/// A call, a reply, a fail or a crash, with what its call says.
#[derive(Clone, Copy, Debug, PartialEq, Eq)]
pub struct Event {
    /// The line, from 1.
    pub line: u32,
    pub process: u32,
    /// The register of the call, which a reply or a fail need not name. A crash has none.
    pub register: Option<RegId>,
    pub what: What,
    /// The written value of a write's call, of its reply and of its fail, the value that a read's
    /// reply gives, and of any other event none.
    pub value: Option<Val>,
}
