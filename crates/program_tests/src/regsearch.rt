//! Tests of the search of one register, with and without distinct values.
//!
//! Read it in this order: `registers`, which others use; `small`, `order` and `distinct`.

mod distinct;
mod order;
mod registers;
mod small;
