//! What the programs share about their command lines: how words are read, what is said of those
//! that are refused, and how a program ends.
//!
//! What the floor above may rely on: [`file`], [`option`] and [`flag`] make the arguments of the definitions.
//! [`read`] reads words by a command, and what it finds is what the command's rules say of those words;
//! [`file_in`] gives the file's name. [`status`] numbers the endings. [`words_given`], [`tell`] and their
//! like talk to the system, and promise nothing.
//!
//! Read it in this order: `fault`, why there are no words; `argument`; `reading`; `given`, the words from the
//! system; `ending`, which numbers the endings; `telling`, what goes to standard error.
#![tactic(auto)]

mod argument;
mod ending;
mod fault;
mod given;
mod reading;
mod telling;

pub use argument::{file, flag, option, up_to};
pub use ending::{Ended, status};
pub use fault::WordsFault;
pub use given::words_given;
pub use reading::{file_in, read};
pub use telling::{tell, tell_no_words, tell_unopened};
