//! From the bytes of a history with compare-and-swap (cas) to the bytes of its report: each register is
//! atomic, or it isn't, or the search gave up within its bounds.
//!
//! What the floor above may rely on: [`run`] pulls all the bytes of a source, and the bytes that it pushes
//! into a sink are a report of their history; or it answers a refusal, and has pushed nothing, or a
//! beginning if it is the sink that failed. A yes of a report names a legal order of the register's
//! operations. After a no there is none. If it names a reply, what was called before that has none either,
//! given the outcomes that the whole history records, and without later replies; and it lists the calls that
//! are open at that reply. The whole is called atomic only if each register is, and not atomic only if one
//! isn't. A value that nobody wrote is found whatever the bounds are.
//!
//! [`check_alone`] gives the report's values for bytes at hand, by the
//! calling thread alone, and [`text`] their bytes.
//!
//! Read it in this order: `settings`; `lines`, `counts` and `register`, what is found of one register;
//! `rounds`, what is found of all, by workers that share them or by one thread; `registers`, the lines
//! of all; `history`, the report; `whole`, from source to sink; `alone`, from bytes to the report.
#![tactic(auto)]

mod alone;
mod counts;
mod history;
mod lines;
mod register;
mod registers;
mod rounds;
mod settings;
mod whole;

pub use alone::check_alone;
pub use byte_ends::{FromReader, FromWriter, IoFail, MemSink, MemSource, Sink, Source};
pub use reg_intake::{Refusal, message};
pub use report_text::search::{Atomicity, Fault, Outcome, RegisterReport, Report, text};
pub use settings::{MAX_WORKERS, Settings};
pub use whole::run;
