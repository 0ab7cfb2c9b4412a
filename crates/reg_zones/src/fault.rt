//! Why a register isn't atomic.
ghost use Rattle.std.specs.Prelude.{◌≡◌};
ghost use Rattle.history_model.specs.Lists.{In};
ghost use Rattle.history_model.specs.Operations.{IsCompleted};
ghost use Rattle.history_model.specs.declared.operation.Operation.{Operation};
ghost use Rattle.history_model.specs.Naming.{name_of};
ghost use Rattle.reg_zones.specs.Faults.{IsFault, IsConflictFault};
ghost use Rattle.reg_zones.specs.Register.{operations_of};
ghost use Rattle.reg_zones.specs.Sweep.{IsClusterOf};

use crate::register::Register;
use crate::zone::Cluster;
use history_model::{EvId, Oper};

/// The fault of a register: the first of these that applies.
#[derive(Clone, Copy, Debug, PartialEq, Eq)]
pub enum Fault {
    /// Of the completed reads whose value has no write in the register, the one called first.
    Unwritten {
        read: Oper,
    },
    /// Of the completed reads that precede their write, the one called first, with that write.
    Early {
        read: Oper,
        write: Oper,
    },
    /// The writes of two clusters whose zones conflict, the one with the earlier low end first. Of all such
    /// pairs it is the one whose second low end comes first.
    ///
    /// In `first` an operation of the first cluster precedes one of the second: the one that replies first,
    /// and the one called last. In `second` one of the second cluster precedes one of the first, likewise.
    Zones {
        writes: (Oper, Oper),
        first: (Oper, Oper),
        second: (Oper, Oper),
    },
}

/// The fault of the first two clusters that conflict, with the operations that show it.
pub(crate) fn conflict_of(register: Register<'_>, first: Cluster, second: Cluster) -> Fault
    requires { (v : Operation) × (w : Operation) × IsConflictFault (operations_of register) v w
        × IsClusterOf (operations_of register) v first
        × IsClusterOf (operations_of register) w second }
    ensures { IsFault (operations_of register.entry) result }
{
    Fault::Zones {
        writes: (first.write, second.write),
        first: (
            replied_at(register, first.zone.f),
            called_at(register, second.zone.s),
        ),
        second: (
            replied_at(register, second.zone.f),
            called_at(register, first.zone.s),
        ),
    }
}

/// The operation of a register that was called at a time.
fn called_at(register: Register<'_>, time: u32) -> Oper
    ensures { (a : Operation) → In a (operations_of register.entry) → a.call ≡ time → name_of a ≡ result }
{
    if time < 2 {
        Oper::Initial(register.id)
    } else {
        Oper::Called(EvId::at(time))
    }
}

/// The operation of a register that replied at a time.
fn replied_at(register: Register<'_>, time: u32) -> Oper
    requires { (a : Operation) × In a (operations_of register) × IsCompleted a × (a.reply ≡ time) }
    ensures { (a : Operation) → In a (operations_of register.entry) → IsCompleted a → a.reply ≡ time
        → name_of a ≡ result }
{
    let initial = Oper::Initial(register.id);
    if time < 2 {
        initial
    } else {
        register.arena.op_of(EvId::at(time)).unwrap_or(initial)
    }
}
