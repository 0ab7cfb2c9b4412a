//! Sets of small numbers, the slots of something, as words of bits.
//!
//! What the floor above may rely on: contracts ask a [`Slots`] whether it has a slot, by `has` of
//! `specs/Sets`, and nothing else, so each function is a sentence about who is in the set. A set of `W` words
//! has room for the slots below `64 * W`, and nothing is allocated.
#![tactic(auto)]

mod slots;
#[cfg(test)]
mod tests;

pub use slots::Slots;
