//! From the bytes of a history to the bytes of its report.
//!
//! What the floor above may rely on: [`run`] pulls all the bytes of a source, and the bytes that it pushes
//! into a sink are the report of their history; or it answers a refusal, and has pushed nothing, or a
//! beginning if it is the sink that failed. [`check`] gives the report's values, and so does [`check_alone`]
//! without threads; [`merge`] lists the operations of all registers in one legal order. The values and
//! [`text`], which gives their bytes, are handed on from `report_text`. [`plan`] and [`work`] are the pieces
//! of work and one worker; how many workers there are, and how they take turns, changes no report. Sources
//! and sinks are handed on from `byte_ends`, [`Refusal`] and [`message`] from `reg_intake`. [`laws`] says why
//! the whole history is atomic exactly if each of its registers is, and that a history has one report.
//!
//! Read it in this order: `pieces`, the work that is done for a report; `arena_laws`; `fault_lines` and
//! `order_lines`; `by_point`, `merged_order` and `merged_lines`, the order of all registers; `levels` and
//! `tally`; `findings`, what is found of each register, and `lone_thread`, the same without threads;
//! `register`, the line of one; `history`, the values of a report; `outcome` and `findings_text`, its bytes;
//! `first`, the first register that isn't atomic; `report_bytes`; `slice` and `report_values`; `alone`;
//! `whole`.
#![tactic(auto)]

mod alone;
mod arena_laws;
mod by_point;
mod fault_lines;
mod findings;
mod findings_text;
mod first;
mod history;
pub mod laws;
mod levels;
mod lone_thread;
mod merged_lines;
mod merged_order;
mod order_lines;
mod outcome;
mod pieces;
mod register;
mod report_bytes;
mod report_values;
mod slice;
mod tally;
mod whole;

pub use alone::check_alone;
pub use byte_ends::{FromReader, FromWriter, IoFail, MemSink, MemSource, Sink, Source};
pub use merged_order::merge;
pub use outcome::Outcome;
pub use pieces::{
    BadReads, Gate, Judgement, MAX_CUT, MAX_WORKERS, OpenGate, Order, Piece, Plan, Settings,
    Worked, plan, work,
};
pub use reg_intake::{Refusal, message};
pub use report_text::check::{FaultLines, Lines, RegReport, Registers, Report, Verdict, text};
pub use report_values::check;
pub use whole::run;
