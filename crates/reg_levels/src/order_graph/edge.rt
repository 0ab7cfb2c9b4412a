//! An edge of a graph.

/// Nodes are numbered from 0.
#[derive(Clone, Copy, Debug, PartialEq, Eq)]
pub struct Edge {
    /// The node that comes first.
    pub from: u32,
    /// The node that comes later.
    pub to: u32,
}
