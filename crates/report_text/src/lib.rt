//! The values of all reports, and their bytes.
//!
//! What the floor above may rely on: in `check`, `search` and `level`, `text` gives the bytes of a report: a
//! line of compact JSON for each register and one for the summary, keys in byte order. What a report has to
//! say of a history is told by the floor above.
//!
//! Read it in this order: `json_fields`, the fields of a JSON object, one after another; `check`, the report
//! of `regcheck`; `search`, that of `regsearch`; `level`, that of `reglevel`.
#![tactic(auto)]

pub mod check;
mod json_fields;
pub mod level;
pub mod search;
