//! Why a register gives a guarantee, or not: laws over the definitions alone.
//!
//! What the floors above may rely on: evidence of a fault means that no order gives the guarantee; an order
//! of the kept writes in which each stands before those that it leads to expands to a legal order; so a
//! register gives a guarantee exactly if it is clean for it and has such an order of its writes. Weaker
//! guarantees follow from stronger ones, and longer operations and beginnings keep what the whole keeps.
//!
//! Nothing runs here: each law is the contract of a function that does nothing. Read `Leads` of `specs/`
//! first, then `Evidence` and `WriteOrders`, and then [`laws`]. Of whole histories, read `Causal`, then
//! `CausalFault` and [`causal`].
#![tactic(auto)]

pub mod causal;
pub mod laws;
