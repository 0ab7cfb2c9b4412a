//! All that several threads do, and how large their shares are.
//!
//! What the floor above may rely on: [`map_each`] gives what a closure makes of each item, in order, and
//! [`map_parts`] what it makes of each of some parts, which are the items in order. [`both`] and
//! [`both_mut`] call two closures at once, and [`map_jobs`] has a thread for each of a few jobs. No
//! other crate starts a thread outside tests. The constants of the sizes stand in `sizes`, and none of them
//! changes a result: contracts speak of the items alone.
//!
//! Read it in this order: `sizes`, `steps`, `pairs`.
#![tactic(auto)]

mod pairs;
mod sizes;
mod steps;

pub use pairs::{both, both_mut, map_jobs};
pub use sizes::{
    FEWEST_LINES, LINES_PER_LIST, NUMBERS_PER_PART, OPERATIONS_PER_PART, POINTS_PER_PART,
    REGISTER_PARTS, has_one_processor, share_of, share_size,
};
pub use steps::{map_each, map_parts};
