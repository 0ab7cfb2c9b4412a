//! The operations that the canonical order lists, with what places them.
ghost use Rattle.std.specs.Prelude.{◌≡◌, ◌+◌};
ghost use Rattle.history_model.specs.Operations.{initial_write};
ghost use Rattle.reg_zones.specs.Entries.{IsListedAt, entry_of};
ghost use Rattle.reg_zones.specs.Register.{operations_of};
ghost use Rattle.reg_zones.specs.Sweep.{IsClusterOf, IsMetAt};

use crate::register::{Met, Register};
use crate::valued::valued_event;
use crate::zone::{Cluster, zone_at};
use history_model::{EvId, Oper};
use history_text::OpKind;

/// A kept write or a completed read.
#[derive(Clone, Copy, Debug, PartialEq, Eq)]
pub(crate) struct Entry {
    /// The low end of its cluster.
    pub(crate) low: u32,
    /// Its place in the cluster: 0 for the write, and a read's call.
    pub(crate) turn: u32,
    /// The time of its call.
    pub(crate) call: u32,
    pub(crate) oper: Oper,
}

/// The entry of the initial write; `initial` is its cluster.
pub(crate) fn initial_entry(register: Register<'_>, initial: Cluster) -> Entry
    requires { IsClusterOf (operations_of register) (initial_write register.id.0) initial }
    ensures { result ≡ entry_of (operations_of register.entry) (initial_write register.entry.id.0) }
{
    Entry {
        low: initial.zone.low(),
        turn: 0,
        call: 0,
        oper: Oper::Initial(register.id),
    }
}

/// The listed operation that the event calls, if it calls one.
pub(crate) fn listed_at(register: Register<'_>, met: Met, id: EvId) -> Option<Entry>
    requires { IsMetAt register.arena.now register.id.0 id.0 met }
    ensures { IsListedAt (operations_of register.entry) (id.0 + 2) result }
{
    let Met::Call(oper, op) = met else {
        return None;
    };
    let valued = valued_event(register, met, id)?;
    let zone = zone_at(register.arena, valued)?;
    let turn = match op.kind {
        OpKind::WriteOp => 0,
        OpKind::ReadOp => op.call,
    };
    Some(Entry {
        low: zone.low(),
        turn,
        call: op.call,
        oper,
    })
}
