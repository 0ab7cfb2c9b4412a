//! From the bytes of a source to the operations of each register, or the refusal of the first faulty line: of
//! histories with compare-and-swap (cas).
//!
//! What the floor above may rely on: [`history_of`] pulls all the bytes of a source, has several threads
//! read their lines, and gives the operations of their history; or it answers a `Refusal`. Too long an
//! input and a failure go before a faulty line and before memory. [`history_alone`] gives the operations of
//! bytes that are at hand, by the calling thread alone. Both take in line after line: [`Events::take`]
//! takes an event in after others, or gives its refusal, by exactly the rules of the format;
//! [`Events::history_alone`] gives the names of the registers, and of each the operations, with what each
//! did by what its reply says. [`laws`] says what holds of the operations of each register: that they stand
//! in time as a history's.
//!
//! The definitions, in the order to read them: `Events`, what an event says; `Refusals`, by which rules of
//! the table of `history_model` it is refused; `Told`, what an operation did; `History`, the operations of
//! an accepted history; `Taken`, `Input` and `Blocks`, those of lines, of a source and of its blocks. In the
//! code: `said`, `agrees` and `reason`, why an event is refused; `act` and `calls`, which make the
//! operations; `registers`, which numbers the registers and parts the operations; `history`; `events`, which
//! takes events in and makes their history; `blocks`, which cuts the lines; `lines`, which has them read and
//! taken in; and `intake`. `Kept` defines what the code keeps beside its lists, and `Listed` how the
//! operations of each register are listed.

mod act;
mod agrees;
mod blocks;
mod calls;
mod events;
mod history;
mod intake;
pub mod laws;
mod lines;
mod reason;
mod registers;
mod said;

pub use events::Events;
pub use history::History;
pub use intake::history_of;
pub use lines::history_alone;
pub use said::Asked;
