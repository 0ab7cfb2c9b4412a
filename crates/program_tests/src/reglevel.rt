//! Tests of what is below `level_report`: registers that are worked by hand.
//!
//! Read it in this order: `histories`, the registers; `clusters`, `counts`, `gaps`, `graphs` and
//! `guarantees`, what is found of them.

mod clusters;
mod counts;
mod gaps;
mod graphs;
mod guarantees;
mod histories;
