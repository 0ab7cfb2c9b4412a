//! What a line of a history says: one event, or why it has none.
ghost use Rattle.std.specs.Prelude.{◌≡◌};
ghost use Rattle.history_text.specs.Values.{tells_nothing, word_of};

use crate::apart::Apart;
use crate::fault::LineFault;
use crate::name::Name;
use crate::optional_name::OptionalName;

/// A value of a register.
#[derive(Clone, Copy, Debug, PartialEq, Eq)]
pub enum Val {
    /// What every register holds at first. It can be read, and never written.
    Null,
    /// A written value, any whole number of 64 bits.
    Int(i64),
}

/// Which operations a program takes.
#[derive(Clone, Copy, Debug, PartialEq, Eq)]
pub enum Operations {
    /// Reads and writes. To such a program no other word is one for an operation, and it looks at no member
    /// that only other operations have.
    ReadsAndWrites,
    /// Deletes, swaps and compare-and-swap (cas) as well.
    WithCas,
}

/// What an operation does to its register.
#[derive(Clone, Copy, Debug, PartialEq, Eq)]
pub enum OpKind {
    /// A read, which gives a value.
    ReadOp,
    /// A write of one number.
    WriteOp,
}

impl OpKind {
    /// Its word.
    pub fn word(self) -> OpWord
        ensures { result ≡ word_of self }
    {
        match self {
            OpKind::ReadOp => OpWord::Read,
            OpKind::WriteOp => OpWord::Write,
        }
    }
}

/// The word by which a line says what its operation is.
#[derive(Clone, Copy, Debug, PartialEq, Eq)]
pub enum OpWord {
    /// A read.
    Read,
    /// A write.
    Write,
    /// A cas, which writes one value if its register holds the value that it names, or another one.
    Cas,
    /// A delete, which writes null.
    Delete,
    /// A swap, which writes one number, and whose reply tells of the value before.
    Swap,
}

/// What a cas asks of the value that its register holds.
#[derive(Clone, Copy, Debug, PartialEq, Eq)]
pub enum Compared {
    /// That it is this one.
    From(Val),
    /// That it is another one.
    Unless(Val),
}

/// A cas: if the value that its register holds is as it asks, the cas writes `to`, and else it changes
/// nothing.
#[derive(Clone, Copy, Debug, PartialEq, Eq)]
pub struct CasCall {
    pub compared: Compared,
    pub to: Val,
    /// Whether the member `old` of its reply counts.
    pub asks_old: bool,
}

/// The call of an operation that is neither a read nor a write.
#[derive(Debug, Drop)]
pub enum OtherCall {
    /// A cas from the value to the number, which doesn't ask for the old value.
    Cas(Val, i64),
    /// Any other cas.
    CasOf(Apart<CasCall>),
    /// A delete.
    Delete,
    /// A swap, which writes the number.
    Swap(i64),
}

/// The word by which a line says what happened.
#[derive(Clone, Copy, Debug, PartialEq, Eq)]
pub(crate) enum EventWord {
    /// A call.
    Call,
    /// The open call of the process ends, and has taken effect.
    Reply,
    /// The open call of the process ends, and had no effect.
    Fail,
    /// The process does nothing more.
    Crash,
}

/// What a reply or a fail says of the call that it ends. A part that it leaves out is `None`.
#[derive(Debug, Drop, PartialEq)]
pub struct ReplyParts {
    /// The word for the operation.
    pub op: Option<OpWord>,
    /// The register of the operation.
    pub register: OptionalName,
    /// The value of the operation. A `null` in the line is `Some(Null)`.
    pub value: Option<Val>,
    /// Whether a cas took place, as a member `ok` that is true or false says. It counts only in the reply to
    /// a cas.
    pub ok: Option<bool>,
}

/// What a reply tells of the value that its operation met. The outer `None` stands for a member of another
/// form, the inner one for none.
#[derive(Clone, Copy, Debug, PartialEq, Eq)]
pub struct Told {
    /// Whether there was a value, as a member `found` that is true or false says.
    pub found: Option<Option<bool>>,
    /// The value, as a member `old` says.
    pub old: Option<Option<Val>>,
}

impl Told {
    /// What a reply with neither member tells.
    pub const NOTHING: Told = Told {
        found: Some(None),
        old: Some(None),
    };

    /// Whether the reply has neither member.
    pub fn is_nothing(self) -> bool
        ensures { result ≡ tells_nothing self }
    {
        matches!((self.found, self.old), (Some(None), Some(None)))
    }
}

/// What happened, where operations are reads and writes.
#[derive(Debug, Drop, PartialEq)]
pub enum Kind {
    /// The call of a read of the register.
    CallRead(Name),
    /// The call of a write of the value to the register.
    CallWrite(Name, i64),
    /// The reply to the open call of the process.
    Reply(ReplyParts),
    /// The end of the open call of the process, which had no effect.
    Fail(ReplyParts),
    /// The process does nothing more.
    Crash,
}

/// What happened, whatever the operation is. What rarely occurs lies apart: no event is longer for it.
#[derive(Debug, Drop)]
pub enum AnyKind {
    /// What may happen to a read or a write; a reply or a fail may be that of another operation.
    Plain(Kind),
    /// The call of another operation on the register.
    CallOther(Name, OtherCall),
    /// A reply that has something to tell of the value that its operation met.
    Telling(ReplyParts, Apart<Told>),
}

/// The event of one line, where operations are reads and writes.
#[derive(Debug, Drop, PartialEq)]
pub struct LineEvent {
    /// The line's number, from 1.
    pub line: u32,
    /// The process of the event; any number of 32 bits.
    pub process: u32,
    /// What happened.
    pub kind: Kind,
}

/// The event of one line, whatever its operation is.
#[derive(Debug, Drop)]
pub struct AnyEvent {
    /// The line's number, from 1.
    pub line: u32,
    /// The process of the event; any number of 32 bits.
    pub process: u32,
    /// What happened.
    pub kind: AnyKind,
}

/// What one line says: its event, or its lowest-numbered fault.
pub type Line = Result<LineEvent, LineFault>;
