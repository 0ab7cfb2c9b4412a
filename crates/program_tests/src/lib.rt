//! Tests of what the programs are made of, by public calls alone.
//!
//! They are a crate of their own, so no other crate is proved a second time for them. What the built programs
//! answer is tested by scripts.
//!
//! Read it in this order: `regcheck`, from the lines of an input to runs in memory; `regsearch`, the search
//! of one register; `reglevel`, registers that are worked by hand.
#![tactic(auto)]

#[cfg(test)]
mod regcheck;
#[cfg(test)]
mod reglevel;
#[cfg(test)]
mod regsearch;
