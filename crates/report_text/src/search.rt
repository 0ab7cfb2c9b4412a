//! What the report of a history with compare-and-swap (cas) says of each register, and its bytes.
//!
//! What the floor above may rely on: [`text`] gives the bytes of a [`Report`]: a line of compact
//! JSON for each register and one for the summary, keys in byte order. What a report has to say
//! of a history is told by the floor above.
//!
//! Read it in this order: `report`, the values; `send`, what is sent to a serializer, field by field as
//! `json_fields` has it; `written`, the bytes.

mod report;
mod send;
mod written;

pub use report::{Atomicity, Fault, Outcome, ReachedBound, RegisterReport, Report};
pub use written::text;
