//! The new-old inversion that a conflict can be.
ghost use Rattle.std.specs.Prelude.{◌≡◌};
ghost use Rattle.reg_zones.specs.Inversions.{inversion_named};

use crate::fault::Fault;
use history_model::Oper;

/// Two operations of a conflict, the first preceding the second: the one that replies first in the second
/// write's cluster, and the one called last in the first write's. `None` of other faults.
///
/// If the register has a single writer and is regular, they are a new-old inversion, and every fault has one
/// ([`laws::inversions_decide`](crate::laws::inversions_decide)). It takes no memory and always answers.
pub fn inversion_of(fault: &Fault) -> Option<(Oper, Oper)>
    ensures { result ≡ inversion_named fault.now }
{
    match fault {
        Fault::Zones { second, .. } => Some(*second),
        _ => None,
    }
}
