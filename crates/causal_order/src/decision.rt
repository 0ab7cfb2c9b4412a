//! What is decided of a history. Operations are named by their places in the list of its operations.

/// Why an operation comes before another.
#[derive(Debug, PartialEq, Drop)]
pub enum Why {
    /// One process called both, this one first.
    Process,
    /// The other is a completed read of the value that this one wrote.
    Read,
    /// This one is an initial write, and somebody called the other.
    Initial,
    /// The read gives the other's value, although it knows of this one, a write of the same register.
    Hidden {
        read: u32,
        /// The operations from this one to the read, both included, each of which learns of the one before
        /// it at once; `None` if they were not found within a bound on the work for all steps of the answer.
        knew: Option<Vec<u32>>,
    },
}

/// A step of a cycle: the operation at `from` comes before that at `to`, where the next step begins, or, at
/// the last step, the first one.
#[derive(Debug, PartialEq, Drop)]
pub struct CausalStep {
    pub from: u32,
    pub to: u32,
    pub why: Why,
}

/// Why no order of the writes is causal.
#[derive(Debug, PartialEq, Drop)]
pub enum CausalFault {
    /// The value of the completed read was never written to its register.
    Unwritten { read: u32 },
    /// Each operation comes before the next one, and the last one before the first.
    Cycle(Vec<CausalStep>),
}

/// Whether a history is causal.
#[derive(Debug, PartialEq, Drop)]
pub enum Decision {
    /// It is: its writes that are initial, completed or read, in an order that shows it.
    Causal(Vec<u32>),
    /// It is not.
    Broken(CausalFault),
    /// The graph, the clocks that are held at once, or the work would be greater than their bounds.
    Unknown,
}
