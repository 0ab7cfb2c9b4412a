//! Whether a register is atomic: never unknown if it has no cas and none of its values is written twice.
//!
//! What the floor above may rely on: [`decide`] promises what `decide` of `register_search` promises, and
//! takes its place. Registers with a cas or a repeated value go to that search, within its bounds. Any other
//! goes there for a short time; if that isn't enough, zones decide in n log n steps (Gibbons and Korach,
//! Testing Shared Memories, 1997), as `regcheck` does.
//!
//! Zones only find. Their order is checked by the definitions before it is a yes. For a no they name a reply,
//! two writes and four operations at most that don't fit, and these alone go to the search. That they have no
//! order is why all operations have none, by the law in [`laws`]. So no answer rests on zones.
//!
//! Read it in this order: `laws`; `distinct`, which registers go to zones; `part`, the operations that show a
//! fault; `lines` and `zones`, which ask zones; `first`, the first reply with a fault; `verdict`, which
//! answers.

mod distinct;
mod first;
pub mod laws;
mod lines;
mod part;
mod verdict;
mod zones;

pub use verdict::decide;
