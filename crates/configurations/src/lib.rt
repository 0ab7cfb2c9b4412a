//! Sets of configurations go forward over the calls and the replies of a register's operations.
//!
//! What the floor above may rely on: if [`go_forward`] says that it's hopeless after a reply, the
//! events up to that one can't be explained: whatever order the calls take effect in, some reply would
//! say something else. It also names changes, of which it promises nothing: an order made of them has
//! to be checked. It stops at a bound.
//!
//! A configuration is the value of the register and the open calls that have not taken effect; a set of them
//! goes forward over the events (Lowe, Testing for linearizability, 2017). Operations and values are numbers,
//! and open calls have slots, so that a set of calls is a few words. Few configurations are kept, by four
//! rules: a look takes effect as soon as the value suits it; a write that nobody sees stays out of sight; of
//! calls that change alike the one that replies first goes first; and a configuration that another one stands
//! for is dropped. Each rule is a function with a contract of its own, and could be left out: `stands_for`,
//! `is_of_use` with `freeing`, `is_led` with `has_elder`, and the looks in `offspring` and `add_call`.
//!
//! Read it in this order: `op` and `moment`; `bounds`, `reached` and `work`; `table`, the open calls;
//! `config`; `call` and `reply`, one event; `needs`, `outlook` and `guided`, whose yes alone counts; `run`,
//! all of them; `eased`, `depth_first` (with `links` and `tried`) and `relay` (with `runner`, `baton` and
//! `leg`), other ways to go; `stages` and `forward`.
#![tactic(auto)]

mod baton;
mod bounds;
mod call;
mod config;
mod depth_first;
mod eased;
mod forward;
mod guided;
mod leg;
mod links;
mod moment;
mod needs;
mod op;
mod outlook;
mod reached;
mod relay;
mod reply;
mod run;
mod runner;
mod stages;
mod table;
mod tried;
mod work;

pub use bounds::{Bound, Bounds, MAX_CONFIGURATIONS, MAX_STEPS};
pub use forward::go_forward;
pub use moment::Moment;
pub use op::{Kind, NEVER, Op};
pub use reached::{Reached, Taken};
