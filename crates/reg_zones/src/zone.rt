//! Kept writes, their clusters, and the zones of these.
ghost use Rattle.std.specs.Prelude.{◌≡◌, ◌↔◌, ◌<◌, ℕ, IsTrue, Some, length, min};
ghost use Rattle.history_text.specs.declared.event.Val.{Val as AVal};
ghost use Rattle.history_model.specs.Operations.{of_register, operations, value_of};
ghost use Rattle.history_model.specs.declared.operation.Operation.{Operation};
ghost use Rattle.history_model.specs.Walking.{by_value, key_at};
ghost use Rattle.history_model.specs.Naming.{IsNamed, IsOper};
ghost use Rattle.reg_zones.specs.Clusters.{IsKept};
ghost use Rattle.reg_zones.specs.Sweep.{IsKeptWrite, IsZone, IsZoneFound};

use crate::register::Register;
use history_model::{EvId, Oper};
use history_text::{OpKind, Val};
use reg_arena::Arena;

/// The zone of a cluster: of the operations of one value, the first reply and the last call.
///
/// Both are times, as `Op` gives them.
#[derive(Clone, Copy, Debug, PartialEq, Eq)]
pub struct Zone {
    /// The first reply.
    pub f: u32,
    /// The last call.
    pub s: u32,
}

impl Zone {
    /// The low end: the earlier of the two.
    pub fn low(&self) -> u32
        ensures { result ≡ min self.now.f self.now.s }
    {
        self.f.min(self.s)
    }

    /// Whether it is forward: some reply comes before some call, so the cluster doesn't fit into one moment.
    pub fn is_forward(&self) -> bool
        ensures { IsTrue result ↔ (self.now.f < self.now.s) }
    {
        self.f < self.s
    }
}

/// A cluster, by its write.
#[derive(Clone, Copy, Debug, PartialEq, Eq)]
pub(crate) struct Cluster {
    /// Its write.
    pub(crate) write: Oper,
    pub(crate) zone: Zone,
}

/// Whether the operation is a kept write: the initial one, a completed one, or a pending one whose value some
/// completed read has.
pub fn is_kept(arena: &Arena, oper: Oper) -> bool
    requires { IsOper arena.now oper }
    ensures { (w : Operation) → IsNamed arena.now oper w
        → (IsTrue result ↔ IsKept (of_register w.register (operations arena.now)) w) }
{
    let (register, op) = Register::with_operation(arena, oper);
    match (op.kind, op.value) {
        (OpKind::WriteOp, Some(value)) => arena.first_reply(register.id, value).is_some(),
        (OpKind::WriteOp, None) | (OpKind::ReadOp, _) => false,
    }
}

/// The zone of the cluster of a kept write.
pub fn zone_of(arena: &Arena, write: Oper) -> Zone
    requires { IsKeptWrite arena.now write }
    ensures { (w : Operation) → IsNamed arena.now write w
        → IsZone (of_register w.register (operations arena.now)) (value_of w) result }
{
    let (register, op) = Register::with_operation(arena, write);
    let found = match op.value {
        Some(value) => zone_with(register, value),
        None => None,
    };
    found.unwrap_or(Zone { f: 0, s: 0 })
}

/// The zone of the cluster of a value, if it has a completed operation.
fn zone_with(register: Register<'_>, value: Val) -> Option<Zone>
    ensures { IsZoneFound register.entry.arena.now register.entry.id.0 value result }
{
    let f = register.arena.first_reply(register.id, value)?;
    let s = register.arena.last_call(register.id, value)?;
    Some(Zone { f, s })
}

/// The same of the register and the value of an event; of a read's call, which has no value, `None`.
pub(crate) fn zone_at(arena: &Arena, id: EvId) -> Option<Zone>
    requires { id.0 < length arena.now.events }
    ensures { (k : ℕ × AVal) → key_at by_value arena.now.events id.0 ≡ Some k
        → IsZoneFound arena.now k.0 k.1 result }
{
    let f = arena.first_reply_of(id)?;
    let s = arena.last_call_of(id)?;
    Some(Zone { f, s })
}
