//! The pieces of work of a history, and the workers that do them.
//!
//! What the floor above may rely on: [`plan`] numbers the pieces of a history: register by register its
//! verdict, then its reads in cuts. [`work`] is one worker, which draws numbers from a board and does their
//! pieces. [`do_pieces`] has as many workers as the [`Settings`] say do all of them at once, and gives what
//! is done by number, each piece the one that its task asks for; [`first_faulty`] has them find the first
//! register that isn't atomic, with one piece a register. Neither the number of workers nor the [`Gate`]
//! that they pass changes what is given.
//!
//! Read it in this order: `settings`; `tasks` and `planning`, which number the work; `order`,
//! `judgement`, `bad_reads`, `look` and `piece`, what is done for one number; `gate` and `worker`;
//! `kept`, where what is done is kept; `workers`, all of it at once; `first_search`, which looks
//! for the first register that isn't atomic.

mod bad_reads;
mod first_search;
mod gate;
mod judgement;
mod kept;
mod look;
mod order;
mod piece;
mod planning;
mod settings;
mod tasks;
mod worker;
mod workers;

pub use bad_reads::BadReads;
pub use first_search::first_faulty;
pub use gate::{Gate, OpenGate};
pub use judgement::{Judgement, judge};
pub use kept::Pieces;
pub use order::Order;
pub use piece::Piece;
pub use planning::plan;
pub use settings::{MAX_CUT, MAX_WORKERS, Settings};
pub use tasks::{Plan, Task};
pub use worker::{Worked, work};
pub use workers::do_pieces;
