//! Whether a register with reads, writes and cas is atomic: a search for a legal order, and a check of the
//! order that it finds.
//!
//! What the floor above may rely on: [`decide`] answers yes only with a legal order; no only if there is
//! none, not even of what was known at the reply that it names; and otherwise gives up. [`check_order`] is
//! what a yes rests on: it gives the points of an order only if that is legal by the definitions, whoever
//! made it; [`legal_before`] gives an order back only if it is one of what was known just before a reply, and
//! [`reply_time`] the time of a reply. [`timeline`] puts the calls and the replies in order.
//! [`first_unwritten`] finds a value that nobody gave the register, and [`order_in_turn`] needs no search
//! if operations take turns. [`order_of`] promises nothing: it makes an order from changes, which has to be
//! checked.
//!
//! The search is that of `configurations`, the floor below, which knows operations by numbers alone. It gives
//! the changes that took effect, and this crate makes an order of all operations from them: of all that
//! happened, for a yes, or of what was known just before the reply that a no names. Either order is checked
//! before it is given.
//!
//! A no rests on three steps. If what is known at a reply has a legal order, the events up to there can be
//! explained: each call takes effect before its reply, at a value that suits it. If so, the same operations
//! by numbers can be explained. And `configurations` finds a reply up to which those can't.
//!
//! Read it in this order: `times`, which puts moments in order; `value_numbers` and `numbered`, operations by
//! numbers; `segments` and `order`, the order that changes make; `forward`, the search; `check`, which checks
//! an order; `cut`, what is known at a time; `verdict`, which answers; `unwritten` and `in_turn`, each by
//! itself; and [`distinct_values`], whose answer is never unknown if there is no cas and no value repeats.
#![tactic(auto)]

mod check;
mod cut;
pub mod distinct_values;
mod forward;
mod in_turn;
mod numbered;
mod order;
mod segments;
mod times;
mod unwritten;
mod value_numbers;
mod verdict;

pub use check::check_order;
pub use configurations::{Bound, Bounds, MAX_CONFIGURATIONS, MAX_STEPS, Moment, Taken};
pub use in_turn::{OrderInTurn, order_in_turn};
pub use order::order_of;
pub use times::timeline;
pub use unwritten::first_unwritten;
pub use verdict::{Verdict, decide, legal_before, reply_time};
