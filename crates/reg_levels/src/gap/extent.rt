//! The times of a cluster that decide which others it collides with.
ghost use Rattle.std.specs.Prelude.{◌≡◌};
ghost use Rattle.reg_levels.specs.Gap.Extents.{threshold};

/// A cluster's times, in few words, since passes go over all of them.
#[derive(Clone, Copy, Debug, PartialEq, Eq)]
pub(crate) struct Extent {
    /// The time of its first reply.
    pub(crate) first_reply: u32,
    /// The time of the call of its write.
    pub(crate) write_call: u32,
    /// The time of its last call.
    pub(crate) last_call: u32,
    /// The number of the cluster.
    pub(crate) cluster: u32,
}

impl Extent {
    /// The time below which a reply must come before something of the cluster, if reads may be less than
    /// `age` events old.
    pub(crate) fn threshold(&self, age: u32) -> u32
        ensures { result ≡ threshold age self.now }
    {
        let last = self.last_call.saturating_sub(age.saturating_sub(1));
        last.max(self.write_call)
    }
}
