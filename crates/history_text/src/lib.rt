//! Lines of a recorded history: bytes go in, and for each line that is not blank its event, or its
//! lowest-numbered fault, comes out.
//!
//! What the floor above may rely on: [`lines_of`] says where exactly the lines that are not blank stand, in
//! order and with their numbers, and [`whole_lines`] says the same of bytes after which more may come.
//! [`read_spans`] reads any of these lines: for each it gives its one event, or the lowest-numbered fault
//! that applies to it. Several threads read them, each a part of the lines at a time. [`read_lines`] reads
//! all lines and joins the parts, and [`read_lines_alone`] reads the same by one thread. [`flat_event`] reads
//! a line of the common form alone, for a reader of more forms. Nothing here knows how events follow one
//! another; that is the floor above.
//!
//! Read it in this order: `limits`; `name`, `optional_name`, `apart`, `event` and `fault`, which say what a
//! line can mean; `members`, `refused` and `line`, which read one line; `scan`, `flat_members` and
//! `flat_line`, which read a line of the common form faster; `lines` and `read`, which read them all.
#![tactic(auto)]

mod apart;
mod event;
mod fault;
mod flat_line;
mod flat_members;
mod limits;
mod line;
mod lines;
mod members;
mod name;
mod optional_name;
mod read;
mod refused;
mod scan;

pub use apart::Apart;
pub use event::{
    AnyEvent, AnyKind, CasCall, Compared, Kind, Line, LineEvent, OpKind, OpWord, Operations,
    OtherCall, ReplyParts, Told, Val,
};
pub use fault::{LineFault, LineKind};
pub use limits::{MAX_EVENTS, MAX_INPUT, MAX_LINE, MAX_NAME};
pub use line::{LineError, read_event, read_line};
pub use lines::{Span, WholeLines, lines_of, whole_lines};
pub use name::Name;
pub use optional_name::OptionalName;
pub use read::{read_lines, read_lines_alone, read_spans};
