//! Which event has the value of an operation.
ghost use Rattle.reg_zones.specs.Sweep.{IsMetAt, IsValueOf};

use crate::register::{Met, Register};
use history_model::EvId;
use history_text::OpKind;

/// An event with the value of the operation to which `id` belongs: its reply, or the call of a pending write.
pub(crate) fn valued_event(register: Register<'_>, met: Met, id: EvId) -> Option<EvId>
    requires { IsMetAt register.arena.now register.id.0 id.0 met }
    ensures { IsValueOf register.entry.arena.now register.entry.id.0 id.0 result }
{
    match met {
        Met::Reply => Some(id),
        Met::Call(_, op) => match (op.reply, op.kind) {
            (Some(reply), _) => Some(EvId::at(reply)),
            (None, OpKind::WriteOp) => Some(id),
            (None, OpKind::ReadOp) => None,
        },
        Met::Nothing => None,
    }
}
