//! Which guarantees a register keeps, and how stale its reads got.
//!
//! What the floors above may rely on: [`clusters`] has the clusters of a register's operations; [`counts`]
//! says how stale its reads got; and [`gap`], how old reads must be allowed to be for it to be atomic. Of the
//! guarantees that speak of sessions, `Session`, `OwnWrites`, `Monotonic` and `Sequential`, [`decide`] gives
//! the order of the register's clusters, whose writes respect all that must come first, or a fault, which is
//! evidence that no order gives the guarantee; it never leaves the question open. A graph of the clusters is
//! sorted: an edge joins the clusters of one operation of a session and the next that must respect it, and a
//! chain of the writes by call stands for real time. So a decision takes n log n steps, for the places at
//! which clusters enter the chain.
//!
//! Read it in this order: `clusters`, `counts` and `gap`; `order_graph`, which sorts a graph; `decision`;
//! `asked` and `early`; `graph`; `chain`, `sessions` and `initial`, its edges; `steps`; `deciding`;
//! `listing`.
#![tactic(auto)]

mod asked;
mod chain;
pub mod clusters;
pub mod counts;
mod deciding;
mod decision;
mod early;
pub mod gap;
mod graph;
mod initial;
mod listing;
pub mod order_graph;
mod sessions;
mod steps;

pub use deciding::decide;
pub use decision::{Decision, LevelFault, Step};
pub use listing::order_of;
