//! The table of a register's clusters.
ghost use Rattle.std.specs.Prelude.{◌≡◌};
ghost use Rattle.reg_levels.specs.Clusters.Table.{ends_of};

/// The ends of a cluster: its first reply and its last call. Operations are named by their places.
#[derive(Clone, Copy, Debug, PartialEq, Eq)]
pub struct ClusterEnds {
    /// The write.
    pub write: u32,
    /// The operation that replies first.
    pub first: u32,
    /// The operation that is called last.
    pub last: u32,
    /// The time of the first reply.
    pub first_reply: u32,
    /// The time of the last call.
    pub last_call: u32,
}

/// The clusters of a register's operations.
#[derive(Debug, Drop)]
pub struct ClusterTable {
    /// The ends of each, by the calls of their writes.
    pub clusters: Vec<ClusterEnds>,
    /// For each operation the number of its cluster, which is an index of `clusters`. A pending read is in
    /// none, nor is a pending write that no completed read has.
    pub numbers: Vec<Option<u32>>,
}

impl ClusterTable {
    /// The ends of the cluster of the operation at a place, if it is in one.
    pub fn ends_at(&self, place: u32) -> Option<ClusterEnds>
        ensures { result ≡ ends_of self.now.clusters.items self.now.numbers.items place }
    {
        let number = (*self.numbers.get(place as usize)?)?;
        self.clusters.get(number as usize).copied()
    }
}
