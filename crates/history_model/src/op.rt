//! An operation of an accepted history.
use crate::ids::RegId;
use history_text::{OpKind, Val};

/// An operation with its times. Event `i` has time `i + 2`; the
/// initial write is called at 0 and replies at 1.
#[derive(Clone, Copy, Debug, PartialEq, Eq)]
pub struct Op {
    /// The line of the call, from 1; 0 for an initial write.
    pub line: u32,
    /// The time of the call.
    pub call: u32,
    /// The time of the reply; none if the operation is pending.
    pub reply: Option<u32>,
    /// Who called it; nobody called an initial write.
    pub process: Option<u32>,
    pub register: RegId,
    pub kind: OpKind,
    /// The value written or read; a pending read has none.
    pub value: Option<Val>,
}
