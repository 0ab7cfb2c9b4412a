//! How far a search may go.

/// The most steps that a program may let a search take.
pub const MAX_STEPS: u64 = 1_000_000_000_000;

/// The most configurations that a program may let a search hold in one list.
pub const MAX_CONFIGURATIONS: usize = 1_048_576;

/// What a search met when it gave up.
#[derive(Clone, Copy, Debug, PartialEq, Eq)]
pub enum Bound {
    /// Too many configurations in one list.
    Configurations,
    /// Too much work.
    Steps,
}

/// How far the search for an order of one register may go. Bounds count work and never time, so the same
/// operations give the same answer anywhere.
#[derive(Clone, Copy, Debug, PartialEq, Eq)]
pub struct Bounds {
    /// How often two configurations may be compared, a call be tried in one, or one go over an event; each
    /// counts once for each 64 calls that are open at a time, their number rounded up to a power of two. That
    /// two calls are compared counts as four more, that a configuration finds its place among the best as
    /// eight more, that a call is tried or asked what it needs as two more. That a change takes effect counts
    /// as 256, since it is remembered, or as 16 in the place of one that was forgotten. Depth first, a look
    /// at the next call counts as five.
    pub steps: u64,
    /// How many configurations one list may hold.
    pub configurations: usize,
}

impl Bounds {
    /// What a search may do if nobody says otherwise.
    pub const DEFAULT: Bounds = Bounds {
        steps: 1_000_000_000,
        configurations: 65_536,
    };
}
