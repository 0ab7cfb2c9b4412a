//! The completed read that an event calls: whether it has a write, and whether the read precedes that write.
ghost use Rattle.std.specs.Prelude.{◌≡◌, ◌+◌, None, Some, IfOk, IfErr};
ghost use Rattle.history_model.specs.declared.ids.Oper.{Oper};
ghost use Rattle.history_model.specs.Naming.{IsOper};
ghost use Rattle.history_model.specs.OfValue.{IsWriteOf};
ghost use Rattle.reg_zones.specs.declared.fault.Fault.TheVariants.{Unwritten};
ghost use Rattle.reg_zones.specs.Register.{operations_of};
ghost use Rattle.reg_zones.specs.Sweep.{IsEarlyAt, IsMetAt, IsReadCalledAt};
ghost use Rattle.reg_zones.specs.Sweep.{IsReadOfRegister, IsUnwrittenAt, call_named};

use crate::fault::Fault;
use crate::register::{Met, Register};
use history_model::{EvId, Oper};
use history_text::{OpKind, Val};
use reg_arena::Arena;

/// A completed read, with what it returned and when.
#[derive(Clone, Copy, Debug, PartialEq, Eq)]
pub(crate) struct Read {
    pub(crate) oper: Oper,
    pub(crate) value: Val,
    /// The time of its reply.
    pub(crate) reply: u32,
}

/// The completed read that the event calls, with its write, if the read precedes the write.
/// The error says that the read has no write.
pub(crate) fn early_at(
    register: Register<'_>,
    met: Met,
    id: EvId,
) -> Result<Option<(Oper, Oper)>, Fault>
    requires { IsMetAt register.arena.now register.id.0 id.0 met }
    ensures written { IfOk result (λ _. IsUnwrittenAt (operations_of register.entry) (id.0 + 2) None) }
    ensures early { IfOk result (λ early. IsEarlyAt (operations_of register.entry) (id.0 + 2) early) }
    ensures unwritten { IfErr result (λ fault. (read : Oper) × (fault ≡ Unwritten read)
        × IsUnwrittenAt (operations_of register.entry) (id.0 + 2) (Some read)) }
{
    let Some(read) = read_called_at(register, met, id) else {
        return Ok(None);
    };
    let Some(write) = write_of_read(register, read) else {
        return Err(Fault::Unwritten { read: read.oper });
    };
    Ok(if read.reply < call_of(register.arena, write) {
        Some((read.oper, write))
    } else {
        None
    })
}

/// When an operation was called, by its name alone: no event is read.
fn call_of(arena: &Arena, oper: Oper) -> u32
    requires { IsOper arena.now oper }
    ensures { result ≡ call_named oper }
{
    // The contract of `event_count` bounds the number of events, and so the time.
    let _count = arena.event_count();
    match oper {
        Oper::Initial(_) => 0,
        Oper::Called(id) => id.time(),
    }
}

/// The write of the value of a completed read, by the event of its reply.
fn write_of_read(register: Register<'_>, read: Read) -> Option<Oper>
    requires { IsReadOfRegister (operations_of register) read }
    ensures { IsWriteOf register.entry.arena.now register.entry.id.0 read.value result }
{
    register.arena.write_of_event(EvId::at(read.reply))
}

/// The completed read that the event calls, if it calls one.
fn read_called_at(register: Register<'_>, met: Met, id: EvId) -> Option<Read>
    requires { IsMetAt register.arena.now register.id.0 id.0 met }
    ensures { IsReadCalledAt (operations_of register.entry) (id.0 + 2) result }
{
    let Met::Call(oper, op) = met else {
        return None;
    };
    match (op.kind, op.reply, op.value) {
        (OpKind::ReadOp, Some(reply), Some(value)) => Some(Read { oper, value, reply }),
        _ => None,
    }
}
