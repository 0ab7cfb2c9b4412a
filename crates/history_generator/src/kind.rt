//! The kinds of history.
ghost use Rattle.std.specs.Prelude.{◌≡◌, ◌≢◌, IfSome, IsNone};
ghost use Rattle.history_generator.specs.Kinds.{name_of};

/// A kind of history. Each is atomic but `Inversion`, `Stale` and `Lost`.
#[derive(Clone, Copy, Debug, PartialEq, Eq)]
pub enum Kind {
    /// One client at a time.
    Sequential,
    /// Concurrent clients; each operation takes effect at one instant between its call and its reply.
    Atomic,
    /// Regular, with new-old inversions: while a write is open, a read gives the old value or the new one.
    Inversion,
    /// Some reads give a value that was overwritten before they were called.
    Stale,
    /// Some writes are replied to and never take effect.
    Lost,
    /// Some clients die with an open call, and new ones take their places.
    Pending,
    /// As `Atomic`, with some calls that fail: they have no effect.
    Failing,
    /// As `Atomic`, with some processes that crash, with an open call or
    /// without one. New ones take their places.
    Crashing,
    /// As `Atomic`, over many registers.
    Registers,
    /// As `Atomic`, with many processes.
    Processes,
    /// A value that many processes read at once, with the replies in the order of the calls.
    Hot,
    /// The same with the replies in reverse order.
    HotReverse,
    /// As `Atomic`, with no read.
    Writes,
    /// One forward zone, and many backward ones that are open all through it.
    Zones,
}

/// The names of all kinds.
pub const NAMES: [&str; 14] = [
    "sequential",
    "atomic",
    "inversion",
    "stale",
    "lost",
    "pending",
    "failing",
    "crashing",
    "registers",
    "processes",
    "hot",
    "hot-reverse",
    "writes",
    "zones",
];

impl Kind {
    /// The kind of a name, if there is one.
    pub fn named(name: &str) -> Option<Self>
        ensures some { IfSome result (λ kind. name_of kind ≡ name.now) }
        ensures none { IsNone result → (kind : Kind) → name_of kind ≢ name.now }
    {
        match name {
            "sequential" => Some(Kind::Sequential),
            "atomic" => Some(Kind::Atomic),
            "inversion" => Some(Kind::Inversion),
            "stale" => Some(Kind::Stale),
            "lost" => Some(Kind::Lost),
            "pending" => Some(Kind::Pending),
            "failing" => Some(Kind::Failing),
            "crashing" => Some(Kind::Crashing),
            "registers" => Some(Kind::Registers),
            "processes" => Some(Kind::Processes),
            "hot" => Some(Kind::Hot),
            "hot-reverse" => Some(Kind::HotReverse),
            "writes" => Some(Kind::Writes),
            "zones" => Some(Kind::Zones),
            _ => None,
        }
    }
}
