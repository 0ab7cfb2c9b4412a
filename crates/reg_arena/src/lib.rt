//! Well-formed histories: the lines of a history go in, and one arena of all its events comes out,
//! or the refusal of the first faulty line.
//!
//! What the floor above may rely on: [`Arena::build`] accepts and refuses exactly as the definitions
//! say, and the arena's model is the history of the accepted events. An arena that begins as
//! [`Arena::empty`] and takes in more lines by [`Arena::with_lines`] promises the same, whatever the key
//! of its hashes; a [`Numbering`] first gives these lines the numbers of their registers. Each walk of
//! the arena is the filter of the one list of events, ascending: by register, by process, and by
//! register and value. Operations, their times and their order are those of the definitions in
//! `history_model`, whose laws say what holds of them. All calls but these take no memory and always
//! answer. No floor above calls [`Arena::first_of_process`], [`Arena::first_with_value`],
//! [`Arena::next_with_value`] or [`Arena::write_of`].
//!
//! Read it in this order: `event_lists`, which keeps the events; `numbering`, which numbers the registers of
//! lines, and `names`; `arena`, `operation` and `value_times`, which answer from these lists;
//! `process_standing`, `agreement` and `refusals`, which refuse an event; `appends`, which takes one in; and
//! `build`.
#![tactic(auto)]

mod agreement;
mod appends;
mod arena;
mod build;
mod event_lists;
mod names;
mod numbering;
mod operation;
mod process_standing;
mod refusals;
mod value_times;

pub use arena::Arena;
pub use event_lists::HashKey;
pub use numbering::{NumberedLines, Numbering};
