//! How old reads must be allowed to be for a register to be atomic, in events.
//!
//! What the floor above may rely on: of a clean register [`gap_of`] gives none exactly if the register is
//! atomic. Else the register would be atomic if reads might be as many events old as the gap, and not if all
//! had to be younger; and two clusters show that, each of which must come before the other. [`laws`] says
//! that such pairs decide, and that exactly the clean registers have a gap or are atomic.
//!
//! Ages are those of Golab, Li and Shah (Analyzing Consistency Properties for Fun and Profit, 2011). Read it
//! in this order: `extent`, the times of a cluster; `extents`, those of all clusters; `pass`, which looks for
//! two that collide at an age; `widest`, the greatest age at which two do; then `answer`.

mod answer;
mod extent;
mod extents;
pub mod laws;
mod pass;
mod widest;

pub use answer::{Gap, gap_of};
