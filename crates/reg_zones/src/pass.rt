//! One pass over a register's events, in order of time: its completed
//! reads by call, and its zones by low ends.
ghost use Rattle.std.specs.Prelude.{◌≡◌, ◌+◌, IfOk, IfErr};
ghost use Rattle.history_model.specs.Operations.{initial_write};
ghost use Rattle.reg_zones.specs.Faults.{IsFault};
ghost use Rattle.reg_zones.specs.Register.{operations_of};
ghost use Rattle.reg_zones.specs.Sweep.{AreCompared, IsConflictWith, IsClusterOf, AreLaterFaults};
ghost use Rattle.reg_zones.specs.Sweep.{IsLowEndAt, AreClear, IsMetAt, conflict_in};

use crate::ahead::Ahead;
use crate::fault::Fault;
use crate::reads::early_at;
use crate::register::{Met, Register};
use crate::valued::valued_event;
use crate::zone::{Cluster, Zone, zone_at, zone_of};
use history_model::{EvId, Oper};

/// What the pass knows of the zones that it has compared.
#[derive(Clone, Copy, Debug, PartialEq, Eq)]
pub(crate) enum Compared {
    /// No two of them conflict; the last forward cluster met.
    Clear(Option<Cluster>),
    /// The first two clusters found to conflict, by the second's low end. Nothing more is compared.
    Conflict(Cluster, Cluster),
}

impl Compared {
    /// The two clusters found to conflict, if there are any.
    pub(crate) fn conflict(self) -> Option<(Cluster, Cluster)>
        ensures { result ≡ conflict_in self }
    {
        match self {
            Compared::Clear(_) => None,
            Compared::Conflict(first, second) => Some((first, second)),
        }
    }
}

/// The faults that count if each completed read has its write, as the pass found them.
#[derive(Clone, Copy, Debug, PartialEq, Eq)]
pub(crate) struct LaterFaults {
    /// Of the reads that precede their write, the one called first, with that write.
    pub(crate) early: Option<(Oper, Oper)>,
    /// The first two clusters that conflict, by the second's low end.
    pub(crate) conflict: Option<(Cluster, Cluster)>,
}

/// The first completed read without a write, or else what was found of early reads and of zones.
///
/// At each event that is the low end of a cluster, that cluster's zone is compared with the last forward zone
/// met, and with no other, until two conflict. Of the first two that conflict, the one with the earlier low
/// end is forward, and no forward zone comes between them.
pub(crate) fn pass(register: Register<'_>) -> Result<LaterFaults, Fault>
    ensures ok { IfOk result (λ found. AreLaterFaults (operations_of register.entry) found) }
    ensures err { IfErr result (λ fault. IsFault (operations_of register.entry) fault) }
{
    let mut early = None;
    let initial = initial_cluster(register);
    let mut clusters = Compared::Clear(initial_forward(register, initial));
    let mut ahead = Ahead::of(register);
    while let Some(id) = ahead.next {
        let further = ahead.further(register);
        let met = register.meet(id, ahead.oper);
        let here = early_at(register, met, id)?;
        early = early.or(here);
        compare_at(register, &mut clusters, met, id);
        ahead = further;
    }
    let conflict = clusters.conflict();
    Ok(LaterFaults { early, conflict })
}

/// The cluster of the initial write, if its zone is forward: the last forward cluster before all events.
pub(crate) fn initial_forward(register: Register<'_>, initial: Cluster) -> Option<Cluster>
    requires { IsClusterOf (operations_of register) (initial_write register.id.0) initial }
    ensures { AreClear (operations_of register.entry) 2 result }
{
    if initial.zone.is_forward() {
        Some(initial)
    } else {
        None
    }
}

/// The cluster of the initial write, whose low end is 0 or 1.
pub(crate) fn initial_cluster(register: Register<'_>) -> Cluster
    ensures { IsClusterOf (operations_of register.entry) (initial_write register.entry.id.0) result }
{
    let write = Oper::Initial(register.id);
    let zone = zone_of(register.arena, write);
    Cluster { write, zone }
}

/// Takes the event `id` into what is known of the zones. That changes only where a forward
/// cluster, or one that conflicts, has its low end.
pub(crate) fn compare_at(register: Register<'_>, clusters: &mut Compared, met: Met, id: EvId)
    requires here { IsMetAt register.arena.now register.id.0 id.0 met }
    requires so_far { AreCompared (operations_of register) (id.0 + 2) clusters.old }
    ensures { AreCompared (operations_of register.entry) (id.0 + 3) clusters.new }
{
    let Compared::Clear(last) = *clusters else {
        return;
    };
    let Some(cluster) = low_end_at(register, met, id) else {
        return;
    };
    if let Some(first) = conflict_with(last, cluster) {
        *clusters = Compared::Conflict(first, cluster);
    } else if cluster.zone.is_forward() {
        *clusters = Compared::Clear(Some(cluster));
    }
}

/// The cluster whose low end is the event, if there is one.
fn low_end_at(register: Register<'_>, met: Met, id: EvId) -> Option<Cluster>
    requires { IsMetAt register.arena.now register.id.0 id.0 met }
    ensures { IsLowEndAt (operations_of register.entry) (id.0 + 2) result }
{
    let valued = valued_event(register, met, id)?;
    let zone = zone_at(register.arena, valued)?;
    // The contract of `event_count` bounds the number of events, and so the time.
    let _count = register.arena.event_count();
    if zone.low() != id.time() {
        return None;
    }
    let write = register.arena.write_of_event(valued)?;
    Some(Cluster { write, zone })
}

/// The last forward cluster met, if its zone conflicts with that of `cluster`.
fn conflict_with(last: Option<Cluster>, cluster: Cluster) -> Option<Cluster>
    ensures { IsConflictWith last cluster result }
{
    let met = last?;
    if met.zone.f < cluster.zone.s && cluster.zone.f < met.zone.s {
        Some(met)
    } else {
        None
    }
}
