//! The values of a report of reads and writes, and its bytes.
//!
//! What the floor above may rely on: [`text`] gives the bytes of a [`Report`]: a line of compact
//! JSON for each register and one for the summary, keys in byte order. [`put_register_line`] and
//! [`summary_in_parts`] give the same bytes piece by piece: the line of one register, and that of the summary
//! in parts, whose numbers several threads write. What a report has to say of a history is told by the
//! floor above.
//!
//! Read it in this order: `report`, the values, with `lists`; `send`, what is sent to a serializer, field by
//! field as `json_fields` has it; `bytes`; and `summary_text`, the last line in parts.

mod bytes;
mod lists;
mod report;
mod send;
mod summary_text;

pub use bytes::{put_register_line, text};
pub use lists::{Lines, Registers};
pub use report::{FaultLines, RegReport, Report, Verdict};
pub use summary_text::summary_in_parts;
