//! Whether a register is atomic.
ghost use Rattle.std.specs.Prelude.{◌<◌, ◌↔◌, length, IsOk, IfOk, IfErr, MatchResult};
ghost use Rattle.history_model.specs.Operations.{of_register, operations};
ghost use Rattle.history_model.specs.Legal.{IsAtomic};
ghost use Rattle.reg_zones.specs.Faults.{HasNoFault, IsFault};
ghost use Rattle.reg_zones.specs.Register.{operations_of};
ghost use Rattle.reg_zones.specs.Sweep.{AreLaterFaults};

use crate::fault::{Fault, conflict_of};
use crate::pass::{LaterFaults, pass};
use crate::register::Register;
use history_model::RegId;
use reg_arena::Arena;

/// The fault of a register, or that it has none: then, and only then, it is atomic.
///
/// It takes no memory and always answers, in a time that grows with the register's events alone.
pub fn sweep(arena: &Arena, register: RegId) -> Result<(), Fault>
    requires { register.0 < length arena.now.names }
    ensures fault { MatchResult result
        (λ _. HasNoFault (of_register register.0 (operations arena.now)))
        (λ fault. IsFault (of_register register.0 (operations arena.now)) fault) }
    ensures atomic { IsOk result ↔ IsAtomic (of_register register.0 (operations arena.now)) }
{
    let register = Register::new(arena, register);
    let found = pass(register)?;
    verdict(register, found)
}

/// The fault that was found, an early read before a conflict, or that there is none.
pub(crate) fn verdict(register: Register<'_>, found: LaterFaults) -> Result<(), Fault>
    requires { AreLaterFaults (operations_of register) found }
    ensures ok { IfOk result (λ _. HasNoFault (operations_of register.entry)) }
    ensures err { IfErr result (λ fault. IsFault (operations_of register.entry) fault) }
{
    match (found.early, found.conflict) {
        (Some((read, write)), _) => Err(Fault::Early { read, write }),
        (None, Some((first, second))) => Err(conflict_of(register, first, second)),
        (None, None) => Ok(()),
    }
}
