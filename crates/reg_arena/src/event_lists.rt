//! The events of a history in one list, and the lists that run through it: of each register, of each process,
//! and of each register and value.
//!
//! What the floor above may rely on: [`EventLists::append`] puts an event after the others, and keeps
//! `AreEventLists` (`specs/Lists/EventLists`): each list is the filter of the one list of events, ascending.
//! Each walk and each look-up then answers by the events alone. Nothing is refused here: the floor above asks
//! whether an event is accepted before it appends it. Only `new` and `append` take memory. A [`HashKey`]
//! changes no answer.
//!
//! Read it in this order: `hash_key` and `hasher`, which make the hashes; `options`, `packing` and `rows`,
//! which keep the events; `tables`, `ascent` and `pairs`, which number the pairs of a register and a value;
//! `list_ends` and `processes`, the ends of the lists; `joins`, by which an event joins a list; `lists`,
//! which holds all; and `entries` and `walks`, which answer.

mod ascent;
mod entries;
mod hash_key;
mod hasher;
mod joins;
mod list_ends;
mod lists;
mod options;
mod packing;
mod pairs;
mod processes;
mod rows;
mod tables;
mod walks;

pub use hash_key::HashKey;
pub use hasher::{KeyedHasher, Seeded};
pub use list_ends::{Ends, Entry, Write};
pub use lists::EventLists;
