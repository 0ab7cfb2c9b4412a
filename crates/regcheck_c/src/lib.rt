//! The checkers for programs in C, and for languages that call C: functions on bytes. They start no thread,
//! open no file and keep nothing between calls.
//!
//! What a C program may rely on: [`regcheck_report`], [`regsearch_report`] and [`reglevel_report`] say of
//! the history in their input what the program of that name would say, and write the same report if there
//! is room for all of it. [`regcheck_refusal`] and [`regsearch_refusal`] write what the program says of a
//! history that it refuses; what `reglevel` refuses, `regcheck` refuses in the same words.
//! `library/regcheck.h` declares all of them.
//!
//! Read it in this order: `answer`, what a call says; `place`, where the report or the line of a refusal
//! goes; `checking`; `bounds`, how far a search goes, and `searching`; `asked`, what a caller's numbers ask
//! for, and `leveling`.
#![tactic(auto)]

mod answer;
mod asked;
mod bounds;
mod checking;
mod leveling;
mod place;
mod searching;
#[cfg(test)]
mod tests;

pub use answer::{Answer, BAD_NUMBER, NO, NO_MEMORY, REFUSED, TOO_SMALL, UNKNOWN, YES};
pub use checking::{regcheck_refusal, regcheck_report};
pub use leveling::reglevel_report;
pub use searching::{regsearch_refusal, regsearch_report};
