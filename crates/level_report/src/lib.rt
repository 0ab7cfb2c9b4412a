//! From the bytes of a history to the bytes of its report on levels: which guarantees each register kept, and
//! how old its reads were.
//!
//! What the floor above may rely on: [`run`] pulls all the bytes of a source, and the bytes that it pushes
//! into a sink are the report of their history; or it answers a refusal, and has pushed nothing, or a
//! beginning if it is the sink that failed. Of each register the report says of each level yes exactly if a
//! legal order keeps it, and gives the counts and the gap of the definitions. It is never undecided. Of the
//! whole history it says whether it is causal, which it leaves open only where there are many sessions.
//!
//! Read it in this order: `settings`; `operations`, those of an arena, of one register or all; `called`, how
//! many there are; `lines`, operations by lines; `freshness`, the age of values, and `guarantees`, the levels
//! weaker than atomic; `sooner`, the order of an atomic register's clusters, and `order`, of operations;
//! `register`, the line of one register, and `registers`, of all, by workers that share them; `causal`, the
//! whole history; `totals`, the last line; `outcome`; `whole`, from source to sink; `alone`, from memory to
//! memory.
#![tactic(auto)]

mod alone;
mod called;
mod causal;
mod freshness;
mod guarantees;
mod lines;
mod operations;
mod order;
mod outcome;
mod register;
mod registers;
mod settings;
mod sooner;
mod totals;
mod whole;

pub use alone::check_alone;
pub use byte_ends::{FromReader, FromWriter, IoFail, MemSink, MemSource, Sink, Source};
pub use outcome::Outcome;
pub use reg_intake::{Refusal, message};
pub use report_text::level::{LevelName, LevelsReport, RegisterLevels, Required, text};
pub use settings::{Asked, MAX_WORKERS, Settings};
pub use whole::run;
