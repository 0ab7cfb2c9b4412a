//! A board of numbered jobs that threads draw, each number once, and of
//! the lowest number that any of them flagged.
//!
//! What the floor above may rely on: [`Board::open`] gives a board and its one seat. Seats are
//! [`split`](Board::split) and [`joined`](Board::join), and whoever holds one may step: [`draw`](Board::draw)
//! gives a number that no seat drew before, [`flag`](Board::flag) marks a drawn number, and
//! [`look`](Board::look) gives a flagged one, or the number of jobs. Once all seats are one again,
//! [`close`](Board::close) gives the lowest flagged number, and what that seat drew is each number below a
//! bound, once: all numbers, if a draw has given `None`.
//!
//! All this holds in every schedule, by facts that hold between any two steps. [`laws`] says that
//! every list of the board's events keeps them.
//!
//! The board is two atomic words, `next` and `least`. A draw, flag or look is one step on one of them: no
//! lock, no wait, no second try. All calls but `open` take no memory and always answer.
//!
//! Read it in this order: `limits`, `view` and `seat`; `rule`, `plays` and `parts`, which say what the table
//! keeps and tells; `board`; `laws`.
#![tactic(auto)]

mod board;
pub mod laws;
mod limits;
mod parts;
mod plays;
mod rule;
mod seat;
#[cfg(test)]
mod tests;
mod view;

pub use board::{Board, SeatsOut};
pub use limits::{FULL_WEIGHT, MAX_JOBS};
pub use seat::Seat;
pub use view::View;
